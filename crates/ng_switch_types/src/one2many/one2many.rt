// What a node of the type keeps: its configuration, its cursor, and a row of counters for each hook.
ghost use Rattle.std.specs.Prelude.{◌≡◌, ◌<◌, ◌==◌, ◌&&◌, ◌++◌, if◌then◌else◌, length, map, nat_le, slice_get, IfOk, IfSome, OnErr, OnOk};
ghost use Rattle.std.specs.List.{find};
ghost use Rattle.std.specs.Option.{option_copied, option_to_list};
ghost use Rattle.std.specs.Str.{bytes_eq};
ghost use Rattle.ng_base.specs.Names.{has_name};
ghost use Rattle.ng_machine.specs.Counters.{after_counts};
ghost use Rattle.ng_machine.specs.kinds.One2many.{active_links, blank_one2many, config_bytes, count_many, cursor_after, cursor_behind, deal_targets, is_active, links_to_deal, many, many_after, many_clear, many_with_hook, many_without_hook, moves_cursor, next_in_turn, with_config};
ghost use Rattle.ng_switch_types.specs.one2many.Node.{names_of};

use crate::one2many::rows::{Row, Rows};
use ng_base::{Name, NoMemory};
use ng_machine::Door;
use ng_message::{put_u32, u32_at};
use ng_plan::{many, one};
use std::alloc::Global;
use std::marker::Model;

/// The number of links.
const LINKS: u8 = 64;

/// `NG_ONE2MANY_XMIT_ROUNDROBIN`: to the active links in turn.
pub const ROUND_ROBIN: u32 = 1;

/// `NG_ONE2MANY_XMIT_ALL`: to every active link.
const ALL: u32 = 2;

/// `NG_ONE2MANY_XMIT_FAILOVER`: to the least active link.
pub const FAILOVER: u32 = 3;

/// `NG_ONE2MANY_FAIL_MANUAL`: links are enabled by `setconfig` alone.
pub const MANUAL: u32 = 1;

/// The configuration (`xmitAlg`, `failAlg` and `enabledLinks`, 0 or 1 each), the cursor, and the rows of the hooks.
#[derive(Drop)]
pub struct One2many {
    algorithm: u32,
    failure: u32,
    enabled: [u8; 64],
    cursor: u8,
    rows: Rows,
}

impl Model for One2many {
    ghost use Rattle.ng_machine.specs.kinds.One2many as machine;

    ghost Value = { machine.One2many };

    ghost view = { λ s. record { algorithm = s.algorithm; failure = s.failure; enabled = s.enabled; cursor = s.cursor; rows = s.rows } };
}

impl One2many {
    /// Without hooks and enabled links. It takes no memory.
    pub fn new(alloc: Global) -> One2many
        ensures { result ≡ blank_one2many }
    {
        One2many {
            algorithm: ROUND_ROBIN,
            failure: MANUAL,
            enabled: [0; 64],
            cursor: 0,
            rows: Rows::new(alloc),
        }
    }

    /// Whether there is a hook of this name.
    pub fn has(&self, hook: &Name) -> bool
        ensures { result ≡ has_name (names_of (self.now).rows) hook.now }
    {
        self.rows.has(hook)
    }

    /// The counters of a hook.
    pub fn row(&self, hook: &Name) -> Option<&Row>
        ensures { option_copied result ≡ find (λ row. bytes_eq row.0 hook.now) (self.now).rows }
    {
        self.rows.find(hook)
    }

    /// Whether a link is enabled, and its hook is there.
    fn is_active(&self, link: u8) -> bool
        requires { link < 64 }
        ensures { result ≡ is_active self.now (names_of (self.now).rows) link }
    {
        self.enabled[link as usize] == 1 && self.rows.has(&many(link))
    }

    /// Whether a link is active and not below this number.
    fn is_active_from(&self, number: u8, link: u8) -> bool
        requires { link < 64 }
        ensures { result ≡ (nat_le number link && is_active self.now (names_of (self.now).rows) link) }
    {
        number <= link && self.is_active(link)
    }

    /// The least active link that isn't below this number.
    fn least_from(&self, number: u8) -> Option<u8>
        ensures value { result ≡ find (nat_le number) (active_links self.now (names_of (self.now).rows)) }
        ensures bound { IfSome result (λ link. link < 64) }
    {
        for link in 0..LINKS {
            if self.is_active_from(number, link) {
                return Some(link);
            }
        }
        None
    }

    /// The least active link.
    #[tactic(auto, using(crate::proofs::one2many::Links::first_at))]
    fn least(&self) -> Option<u8>
        ensures value { result ≡ slice_get (active_links self.now (names_of (self.now).rows)) 0 }
        ensures bound { IfSome result (λ link. link < 64) }
    {
        self.least_from(0)
    }

    /// The link whose turn it is.
    fn next_in_turn(&self) -> Option<u8>
        ensures value { result ≡ next_in_turn (self.now).cursor (active_links self.now (names_of (self.now).rows)) }
        ensures bound { IfSome result (λ link. link < 64) }
    {
        self.least_from(self.cursor).or(self.least())
    }

    /// The hooks of the active links, in order of their numbers.
    #[tactic(auto, using(crate::proofs::one2many::Links::hooks_more, crate::proofs::one2many::Links::hooks_same))]
    fn active_hooks(&self, alloc: Global) -> Result<Vec<Name>, NoMemory>
        ensures { IfOk result (λ hooks. hooks.items ≡ map many (active_links self.now (names_of (self.now).rows))) }
    {
        let mut hooks = Vec::new(alloc);
        for link in 0..LINKS {
            if self.is_active(link) {
                hooks.push(many(link))?;
            }
        }
        Ok(hooks)
    }

    /// The hooks of the links that a packet by `one` goes to.
    fn hooks_to_deal(&self, alloc: Global) -> Result<Vec<Name>, NoMemory>
        ensures { IfOk result (λ hooks. hooks.items ≡ map many (links_to_deal self.now (active_links self.now (names_of (self.now).rows)))) }
    {
        match self.algorithm {
            ROUND_ROBIN => hook_of(alloc, self.next_in_turn()),
            ALL => self.active_hooks(alloc),
            _ => hook_of(alloc, self.least()),
        }
    }

    /// The hooks that a packet by this hook goes out of.
    ///
    /// # Errors
    /// `NoMemory` where memory ran out, and for nothing else.
    pub fn targets(&self, alloc: Global, hook: &Name) -> Result<Vec<Name>, NoMemory>
        ensures { IfOk result (λ hooks. hooks.items ≡ deal_targets self.now (names_of (self.now).rows) hook.now) }
    {
        if *hook == one() {
            return self.hooks_to_deal(alloc);
        }
        let mut hooks = Vec::new(alloc);
        if self.rows.has(&one()) {
            hooks.push(one())?;
        }
        Ok(hooks)
    }

    /// Whether a packet by this door moves the cursor.
    fn moves_cursor(&self, door: &Door) -> bool
        ensures { result ≡ moves_cursor self.now door.now }
    {
        match door {
            Door::Hook(hook) => *hook == one() && self.algorithm == ROUND_ROBIN,
            Door::Wire => false,
        }
    }

    /// The cursor after a packet by this door.
    fn cursor_after(&self, door: &Door) -> u8
        ensures { result ≡ cursor_after self.now (names_of (self.now).rows) door.now }
    {
        if self.moves_cursor(door) {
            cursor_behind(self.cursor, self.next_in_turn())
        } else {
            self.cursor
        }
    }

    /// Adds counts. One of a hook that isn't there is passed over.
    #[tactic(auto, using(crate::proofs::one2many::RowLists::counted))]
    pub fn absorb(&mut self, counts: &[(Name, u64, u64)])
        ensures { self.new ≡ after_counts count_many self.old counts.now }
    {
        self.rows.absorb(counts);
    }

    /// Moves the cursor and adds the counts of a packet that came by this door.
    pub fn settle(&mut self, door: &Door, counts: &[(Name, u64, u64)])
        ensures { self.new ≡ many_after self.old (names_of (self.old).rows) door.now counts.now }
    {
        let cursor = self.cursor_after(door);
        self.absorb(counts);
        self.cursor = cursor;
    }

    /// Adds a hook at the end, whose counters are 0.
    ///
    /// # Errors
    /// `NoMemory` where memory ran out, and for nothing else; nothing is changed then.
    pub fn add_hook(&mut self, hook: &Name) -> Result<(), NoMemory>
        ensures ok { OnOk result (self.new ≡ many_with_hook self.old hook.now) }
        ensures err { OnErr result (self.new ≡ self.old) }
    {
        self.rows.add(hook)
    }

    /// Takes a hook away, with its counters.
    pub fn cut_hook(&mut self, hook: &Name)
        ensures { self.new ≡ many_without_hook self.old hook.now }
    {
        self.rows.cut(hook);
    }

    /// Sets the counters of a hook to 0.
    pub fn clear(&mut self, hook: &Name)
        ensures { self.new ≡ many_clear self.old hook.now }
    {
        self.rows.clear(hook);
    }

    /// Takes the configuration that these arguments of `setconfig` are.
    pub fn set_config(&mut self, args: &[u8])
        requires { length args.now ≡ 72 }
        ensures { self.new ≡ with_config self.old args.now }
    {
        self.algorithm = u32_at(args, 0);
        self.failure = u32_at(args, 4);
        self.enabled = enabled_in(&args[8..]);
    }

    /// Appends the configuration as `struct ng_one2many_config` of the manual page.
    ///
    /// # Errors
    /// `NoMemory` where memory ran out, and for nothing else.
    pub fn put_config(&self, out: &mut Vec<u8>) -> Result<(), NoMemory>
        ensures { OnOk result (out.new.items ≡ out.old.items ++ config_bytes self.now) }
    {
        put_u32(out, self.algorithm)?;
        put_u32(out, self.failure)?;
        out.extend_from_slice(&self.enabled)?;
        Ok(())
    }
}

/// The hook of a link, if there is one.
fn hook_of(alloc: Global, link: Option<u8>) -> Result<Vec<Name>, NoMemory>
    requires { IfSome link (λ link. link < 64) }
    ensures { IfOk result (λ hooks. hooks.items ≡ map many (option_to_list link)) }
{
    let mut hooks = Vec::new(alloc);
    if let Some(link) = link {
        hooks.push(many(link))?;
    }
    Ok(hooks)
}

/// The cursor behind the link whose turn it was.
fn cursor_behind(cursor: u8, link: Option<u8>) -> u8
    requires { IfSome link (λ link. link < 64) }
    ensures { result ≡ cursor_behind cursor link }
{
    match link {
        Some(link) => (link + 1) % LINKS,
        None => cursor,
    }
}

/// Whether each link is enabled, as these 64 bytes of a message say.
fn enabled_in(bytes: &[u8]) -> [u8; 64]
    requires { length bytes.now ≡ 64 }
    ensures { result ≡ map (λ value. if value == 0 then 0 else 1) bytes.now }
{
    let mut enabled = [0; 64];
    enabled.copy_from_slice(bytes);
    make_flags(&mut enabled);
    enabled
}

/// In each place anything but 0 becomes 1.
fn make_flags(values: &mut [u8])
    ensures { values.new ≡ map (λ value. if value == 0 then 0 else 1) values.old }
{
    for value in values.iter_mut() {
        make_flag(value);
    }
}

/// Anything but 0 becomes 1.
fn make_flag(value: &mut u8)
    ensures { value.new ≡ (if value.old == 0 then 0 else 1) }
{
    if *value != 0 {
        *value = 1;
    }
}
