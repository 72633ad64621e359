// ng_bpf(4): each hook has a program that decides where the packets that come by it go.
ghost use Rattle.std.specs.Prelude.{◌≡◌, map, IfOk};
ghost use Rattle.std.specs.Arc.{arc_value};
ghost use Rattle.ng_filter_types.specs.bpf.State.{bpf_state};
ghost use Rattle.ng_machine.specs.State.{blank_of};

use crate::bpf::filters::Filters;
use crate::bpf::messages::{obey, reply};
use ng_base::{Errno, Kind, Name, NoMemory};
use ng_machine::{Body, Counts, Farewell, Outcome};
use ng_message::Msg;
use ng_plan::node::Node;
use ng_plan::{Plan, Way, eval, nothing};
use std::alloc::Global;
use std::marker::Model;
use std::sync::Arc;

/// A node that runs the program of the hook that a packet comes by: where it answers a number above 0 the packet goes
/// out of the hook's `ifMatch`, and else out of its `ifNotMatch`, as far as they are there. A new hook has the program
/// that answers 0, and no targets. Its messages are `setprogram`, `getprogram`, `getstats`, `clrstats` and
/// `getclrstats`. ng_bpf(4).
///
/// A contract sees its hooks, each with its program, its targets and its counters.
#[derive(Drop)]
pub struct BpfNode {
    filters: Filters,
}

impl Model for BpfNode {
    ghost use Rattle.std.specs.Prelude.{List};
    ghost use Rattle.ng_machine.specs.kinds.Bpf.{Filter};

    ghost Value = { List Filter };

    ghost view = { λ n. n.filters };
}

impl BpfNode {
    /// Its plan.
    fn share(&self, alloc: Global) -> Result<Arc<Plan>, NoMemory>
        ensures { IfOk result (λ plan. arc_value plan ≡ Way.Bpf (map (λ f. f.way) self.now)) }
    {
        Plan::of_bpf(alloc, self.filters.ways(alloc)?)
    }
}

impl Node for BpfNode {
    ghost state = { λ n. bpf_state n };

    fn kind(&self) -> Kind {
        Kind::Bpf
    }

    fn may(&self, _hook: &Name) -> Result<(), Errno> {
        Ok(())
    }

    #[tactic(auto, using(crate::proofs::bpf::States::is_new, crate::proofs::bpf::States::state_added, crate::proofs::bpf::States::state_undone))]
    fn newhook(&mut self, alloc: Global, hook: &Name) -> Result<(), NoMemory> {
        self.filters.add(alloc, hook)
    }

    #[tactic(auto, using(crate::proofs::bpf::States::state_cut))]
    fn cut(&mut self, hook: &Name) {
        self.filters.cut(hook);
    }

    fn lasting(&self) -> bool {
        false
    }

    fn plan(&self, alloc: Global) -> Result<Option<Arc<Plan>>, NoMemory> {
        Ok(Some(self.share(alloc)?))
    }

    #[tactic(auto, using(crate::proofs::bpf::States::state_kept))]
    fn absorb(&mut self, counts: &Counts) {
        self.filters.absorb(counts.as_slice());
    }

    fn answer(&self, alloc: Global, msg: &Msg) -> Result<Outcome, NoMemory> {
        reply(alloc, &self.filters, msg.header.cmd, &msg.args.0)
    }

    #[tactic(auto, using(crate::proofs::bpf::States::state_kept))]
    fn write(&mut self, alloc: Global, body: &Body) -> Result<Outcome, NoMemory> {
        match body {
            Body::Frame { door, packet, .. } => {
                let plan = self.share(alloc)?;
                let outcome = eval(alloc, &plan, door, packet)?;
                self.filters.absorb(outcome.counts.as_slice());
                Ok(outcome)
            }
            Body::Msg(msg) => obey(alloc, &mut self.filters, msg.header.cmd, &msg.args.0),
            _ => Ok(nothing(alloc)),
        }
    }

    fn farewell(&self) -> Farewell {
        Farewell::Plain
    }
}

/// A bpf node without hooks.
///
/// # Errors
/// `NoMemory` where memory ran out, and for nothing else.
pub fn blank_bpf(alloc: Global) -> Result<BpfNode, NoMemory>
    ensures { IfOk result (λ node. bpf_state node ≡ blank_of Kind.Bpf) }
{
    Ok(BpfNode {
        filters: Filters::new(alloc),
    })
}
