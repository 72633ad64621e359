// Files in memory, which tell what they hold and fail at the calls that are listed.
ghost use Rattle.std.specs.Prelude.{◌≡◌, ◌≢◌, Some, [], All, ◌-◌, ◌≤◌, ◌<◌, ◌↔◌, ◌++◌, ℕ, List, map, min, length, take, drop, find, position, string_bytes, vec_len, vec_capacity, true, IfOk, OnOk, OnErr, IsErr, IsOk, IfSome, IsSome, IsTrue, IsFalse};
ghost use Rattle.std.specs.Option.{option_copied, option_map};
ghost use Rattle.std.specs.Str.{bytes_eq};
ghost use Rattle.ng_outside.specs.Contents.{NoFile, IfHolds, HoldsNow, Grows, KeptOrBegun};
ghost use Rattle.ng_outside.specs.Count.{next_count, Rose};
ghost use Rattle.ng_outside.specs.Read.{ReadsAt};
ghost use Rattle.ng_outside.specs.Memory.{file_state, file_named, bytes_named, contents_named, moved_count, taken_count, with_file, HasRoom, NamesDiffer, FitRooms, HasNoFile, HasNoRoom, Gives};

use crate::{Failed, Files};
use ng_base::NoMemory;
use std::alloc::Global;
use std::marker::Model;

/// A file in memory, as it is handed in.
#[derive(Debug, Drop)]
pub struct MemFile {
    /// Its name.
    pub name: String,
    /// The bytes that it holds.
    pub bytes: Vec<u8>,
    /// How many bytes it may hold at most.
    pub room: usize,
    /// Whether it gives and takes one byte at each call, and not as many as fit.
    pub slow: bool,
}

/// Files in memory. They tell what they hold, and fail where they are told to.
///
/// A call fails exactly where its number is listed, or no file of its name was handed in, or an append
/// finds no room left. The number is counted from 1 over all calls. A failed call changes no contents,
/// and raises the count of faults by one, up to its last value.
#[derive(Debug, Drop)]
pub struct MemFiles {
    files: Vec<MemFile>,
    failing: Vec<u64>,
    calls: u64,
    faults: u64,
}

impl Model for MemFiles {
    ghost use Rattle.std.specs.Prelude.{map, All};
    ghost use Rattle.ng_outside.specs.Memory.{FilesState, file_state, HasRoom};

    ghost Value = { FilesState };

    ghost view = { λ m. record {
      files = map file_state m.files.items;
      failing = m.failing.items;
      calls = m.calls;
      faults = m.faults;
    } };

    ghost invariant = { λ m. All HasRoom m.files.items };
}

// Copies what stands in `bytes` from `at` on to the start of `into`, as much as there is and fits.
fn copy_from(bytes: &[u8], at: u64, slow: bool, into: &mut [u8]) -> usize
    requires { 0 < length into.old }
    ensures number { result ≡ moved_count slow (length into.old) (length bytes.now - at) }
    ensures piece { into.new ≡ take result (drop at bytes.now) ++ drop result into.old }
{
    let start = bytes.len().min(at as usize);
    let most = if slow { 1 } else { into.len() };
    let count = most.min(bytes.len() - start);
    into[..count].copy_from_slice(&bytes[start..start + count]);
    count
}

// The first file of a name.
fn first_named<'a>(files: &'a [MemFile], name: &str) -> Option<&'a MemFile>
    ensures { option_copied result ≡ find (λ file. bytes_eq (string_bytes file.name) name.now) files.now }
{
    files.iter().find(|file| file.name.as_str() == name)
}

// The same, by what is seen of the files.
fn find_file<'a>(files: &'a [MemFile], name: &str) -> Option<&'a MemFile>
    ensures { option_map file_state (option_copied result) ≡ file_named (map file_state files.now) name.now }
{
    first_named(files, name)
}

// The place of the first file of a name.
fn place_of(files: &[MemFile], name: &str) -> Option<usize>
    ensures { result ≡ position (λ file. bytes_eq (string_bytes file.name) name.now) files.now }
{
    files.iter().position(|file| file.name.as_str() == name)
}

// Makes a file hold no bytes.
fn empty(file: &mut MemFile)
    requires { HasRoom file.old }
    ensures changed { file_state file.new ≡ record (file_state file.old) { bytes = [] } }
    ensures room { HasRoom file.new }
{
    file.bytes.clear();
}

// Takes what fits of `bytes` to the end of a file, and tells how many bytes.
fn take_bytes(file: &mut MemFile, bytes: &[u8]) -> usize
    requires old_room { HasRoom file.old }
    requires piece { 0 < length bytes.now }
    ensures number { result ≡ taken_count (Some (file_state file.old)) (length bytes.now) }
    ensures changed { file_state file.new ≡ record (file_state file.old) { bytes = file.old.bytes.items ++ take result bytes.now } }
    ensures room { HasRoom file.new }
{
    let most = if file.slow { 1 } else { bytes.len() };
    let count = most.min(file.room - file.bytes.len());
    file.bytes.extend_from_slice(&bytes[..count]).unwrap();
    count
}

// Makes the file of a name hold no bytes, where there is one, and tells whether there is.
fn empty_named(files: &mut Vec<MemFile>, name: &str) -> bool
    requires { All HasRoom files.old.items }
    ensures there { IsTrue result ↔ IsSome (file_named (map file_state files.old.items) name.now) }
    ensures changed { IsTrue result → map file_state files.new.items ≡ with_file (map file_state files.old.items) name.now (λ _. []) }
    ensures same { IsFalse result → files.new ≡ files.old }
    ensures rooms { All HasRoom files.new.items }
{
    let Some(place) = place_of(files, name) else {
        return false;
    };
    empty(&mut files[place]);
    true
}

// Takes what fits of `bytes` to the end of the file of a name, and tells how many bytes.
fn append_named(files: &mut Vec<MemFile>, name: &str, bytes: &[u8]) -> usize
    requires old_rooms { All HasRoom files.old.items }
    requires piece { 0 < length bytes.now }
    ensures number { result ≡ taken_count (file_named (map file_state files.old.items) name.now) (length bytes.now) }
    ensures changed { 0 < result → map file_state files.new.items
        ≡ with_file (map file_state files.old.items) name.now (λ now. now ++ take result bytes.now) }
    ensures same { result ≡ 0 → map file_state files.new.items ≡ map file_state files.old.items }
    ensures rooms { All HasRoom files.new.items }
{
    let Some(place) = place_of(files, name) else {
        return 0;
    };
    take_bytes(&mut files[place], bytes)
}

// Reserves a file's room.
fn reserve_room(file: &mut MemFile) -> Result<(), NoMemory>
    requires { vec_len file.old.bytes ≤ file.old.room }
    ensures same { file_state file.new ≡ file_state file.old }
    ensures room { OnOk result (HasRoom file.new) }
{
    file.bytes.reserve_exact(file.room - file.bytes.len())?;
    Ok(())
}

impl MemFiles {
    /// The files `initial` in memory, whose calls of the numbers `faults` fail. The names
    /// differ, and each file's bytes fit its room. The room of each file is reserved here, by the
    /// allocator that its bytes came with, so no other call takes memory.
    ///
    /// # Errors
    /// `NoMemory` where memory ran out, and for nothing else.
    pub fn new(
        _alloc: Global,
        initial: Vec<MemFile>,
        faults: Vec<u64>,
    ) -> Result<MemFiles, NoMemory>
        requires names { NamesDiffer initial.items }
        requires rooms { FitRooms initial.items }
        ensures made { IfOk result (λ files. files ≡ record {
          files = map file_state initial.items;
          failing = faults.items;
          calls = 0;
          faults = 0;
        }) }

        // Each name holds what its file was handed in with.
        ensures contents { IfOk result (λ files.
            All (λ file. bytes_named files (string_bytes file.name) ≡ Some file.bytes.items) initial.items) }
    {
        let mut files = initial;
        for i in 0..files.len() {
            reserve_room(&mut files[i])?;
        }
        Ok(MemFiles {
            files,
            failing: faults,
            calls: 0,
            faults: 0,
        })
    }

    /// The bytes that a name holds, where there is a file of that name.
    pub fn bytes(&self, name: &str) -> Option<&[u8]>
        ensures { option_copied result ≡ bytes_named self.now name.now }
    {
        Some(find_file(&self.files, name)?.bytes.as_slice())
    }

    /// How many calls there were.
    pub fn calls(&self) -> u64
        ensures { result ≡ self.now.calls }
    {
        self.calls
    }

    /// How many of them failed.
    pub fn faults(&self) -> u64
        ensures { result ≡ self.now.faults }
    {
        self.faults
    }
}

impl Files for MemFiles {
    ghost contents = { contents_named };

    ghost is_ended = { λ _ _. true };

    ghost faults = { λ state _. state.faults };

    /// # Errors
    /// `Failed` exactly where the number of this call is listed or there is no file of this name.
    fn read(&mut self, name: &str, at: u64, into: &mut [u8]) -> Result<usize, Failed>
        requires { 0 < length into.old }
        ensures failed { IsErr result ↔ HasNoFile self.old name.now }
        ensures gives { IfOk result (λ count.
            IfSome (file_named self.old.files name.now) (λ file. Gives file at into.old into.new count)) }
        ensures ok { OnOk result (self.new ≡ record self.old { calls = next_count self.old.calls }) }
        ensures err { OnErr result (self.new ≡ record self.old {
          calls = next_count self.old.calls;
          faults = next_count self.old.faults;
        }) }

        // What every implementation promises.
        ensures within { IfOk result (λ count. count ≤ length into.new) }
        ensures bytes { IfOk result (λ count.
            IfHolds (contents_named self.old name.now) (λ bytes. ReadsAt bytes at into.new count)) }
        ensures missing { contents_named self.old name.now ≡ NoFile → IsErr result }
        ensures same { contents_named self.new ≡ contents_named self.old }
        ensures counts { (other : List ℕ) → self.old.faults ≤ self.new.faults }
        ensures cause { OnErr result (Rose self.old.faults self.new.faults) }
    {
        self.calls = self.calls.saturating_add(1);
        if !self.failing.contains(&self.calls) {
            if let Some(file) = find_file(&self.files, name) {
                return Ok(copy_from(file.bytes.as_slice(), at, file.slow, into));
            }
        }
        self.faults = self.faults.saturating_add(1);
        Err(Failed)
    }

    /// # Errors
    /// `Failed` exactly where the number of this call is listed or there is no file of this name.
    fn fresh(&mut self, name: &str) -> Result<(), Failed>
        ensures failed { IsErr result ↔ HasNoFile self.old name.now }
        ensures ok { OnOk result (self.new ≡ record self.old {
          files = with_file self.old.files name.now (λ _. []);
          calls = next_count self.old.calls;
        }) }
        ensures err { OnErr result (self.new ≡ record self.old {
          calls = next_count self.old.calls;
          faults = next_count self.old.faults;
        }) }

        // What every implementation promises.
        ensures empty { OnOk result (HoldsNow (contents_named self.old name.now) (contents_named self.new name.now) []) }
        ensures stopped { OnErr result (KeptOrBegun (contents_named self.old name.now) (contents_named self.new name.now) []) }
        ensures others { (other : List ℕ) → other ≢ name.now → contents_named self.new other ≡ contents_named self.old other }
        ensures counts { (other : List ℕ) → self.old.faults ≤ self.new.faults }
        ensures cause { OnErr result (Rose self.old.faults self.new.faults) }
    {
        self.calls = self.calls.saturating_add(1);
        if !self.failing.contains(&self.calls) {
            if empty_named(&mut self.files, name) {
                return Ok(());
            }
        }
        self.faults = self.faults.saturating_add(1);
        Err(Failed)
    }

    /// # Errors
    /// `Failed` exactly where the number of this call is listed, there is no file of this name or it
    /// has no room left.
    fn append(&mut self, name: &str, bytes: &[u8]) -> Result<usize, Failed>
        requires { 0 < length bytes.now }
        ensures failed { IsErr result ↔ HasNoRoom self.old name.now }
        ensures number { IfOk result (λ count. count ≡ taken_count (file_named self.old.files name.now) (length bytes.now)) }
        ensures ok { IfOk result (λ count. self.new ≡ record self.old {
          files = with_file self.old.files name.now (λ now. now ++ take count bytes.now);
          calls = next_count self.old.calls;
        }) }
        ensures err { OnErr result (self.new ≡ record self.old {
          calls = next_count self.old.calls;
          faults = next_count self.old.faults;
        }) }

        // What every implementation promises.
        ensures some { IfOk result (λ count. 0 < count) }
        ensures within { IfOk result (λ count. count ≤ length bytes.now) }
        ensures grown { IfOk result (λ count.
            Grows (contents_named self.old name.now) (contents_named self.new name.now) (take count bytes.now)) }
        ensures same { OnErr result (contents_named self.new ≡ contents_named self.old) }
        ensures others { (other : List ℕ) → other ≢ name.now → contents_named self.new other ≡ contents_named self.old other }
        ensures counts { (other : List ℕ) → self.old.faults ≤ self.new.faults }
        ensures cause { OnErr result (Rose self.old.faults self.new.faults) }
    {
        self.calls = self.calls.saturating_add(1);
        if !self.failing.contains(&self.calls) {
            let count = append_named(&mut self.files, name, bytes);
            if count > 0 {
                return Ok(count);
            }
        }
        self.faults = self.faults.saturating_add(1);
        Err(Failed)
    }

    /// Nothing is left to be written, so this never fails, and is no call that is counted.
    fn finish(&mut self, _name: &str) -> Result<(), Failed>
        ensures ok { IsOk result }
        ensures all { self.new ≡ self.old }

        // What every implementation promises.
        ensures ended { OnOk result (true ≡ true) }
        ensures same { contents_named self.new ≡ contents_named self.old }
        ensures counts { (other : List ℕ) → self.old.faults ≤ self.new.faults }
        ensures cause { OnErr result (Rose self.old.faults self.new.faults) }
    {
        Ok(())
    }
}
