//! Records of whole trees: what lies in a structure stands before it, and a reader keeps those that
//! wait for the structure in which they lie. Each call that writes says what its records add where
//! they are read, so that calls go one into another.
ghost use Rattle.std.specs.Prelude.{◌≡◌, ◌+◌, ◌≤◌, ◌^◌, ◌<◌, ℕ, List, [], ◌∷◌, ◌++◌, length};
ghost use Rattle.std.specs.Prelude.{Result, Ok, OnOk, IfOk, IfErr};
ghost use Rattle.record_wire.specs.Fault.{Returns, within};
ghost use Rattle.record_wire.specs.Record.{Structure, structure};
ghost use Rattle.record_wire.specs.Write.{word, bytes_of, size_of, IsReadAs};
ghost use Rattle.record_wire.specs.Trees.{head_at, inner_count, are_at, place_of, ended, root_at};
ghost use Rattle.record_wire.specs.Trees.{ValueOf, whole_at, Adds, RefusesCount, RefusesRecord};
ghost use Rattle.record_wire.specs.Trees.{RefusesWhole};
ghost use Rattle.record_wire.specs.declared.fault.Rule.{Rule};

use crate::fault::{Fault, Rule, broken};
use crate::record::{Record, number_at, record_at};
use crate::write::{WriteError, put_word, with_record};
use std::alloc::{AllocError, Global};

/// In how many structures one may lie.
pub const LEVEL_LIMIT: u32 = 61;

/// How many structures there may be.
pub const STRUCTURE_LIMIT: u32 = 4_000_000;

/// Returns how many records there are, and the bytes of these.
#[tactic(auto, unfolding(crate::specs::Trees::head_at))]
fn count_at(bytes: &[u8]) -> Result<(u32, &[u8]), Rule>
    ensures { Returns (λ x. (x.0, x.1.now)) result (head_at bytes.now) }
{
    let (count, rest) = number_at(bytes)?;
    let (none, rest) = number_at(rest)?;
    if count == 0 || none != 0 {
        return Err(Rule::Head);
    }
    Ok((count, rest))
}

/// Returns how many records there are, and the bytes of these.
pub fn head_at(bytes: &[u8]) -> Result<(u32, &[u8]), Fault>
    ensures { Returns (λ x. (x.0, x.1.now)) result (within bytes.now (head_at bytes.now)) }
{
    match count_at(bytes) {
        Ok(head) => Ok(head),
        Err(rule) => Err(broken(rule, bytes)),
    }
}

/// Returns how many lie right in a structure: its children, and behind them its dictionary.
pub fn inner_count(one: &Record<'_>) -> usize
    ensures { result ≡ inner_count (structure one.now) }
{
    if one.has_dictionary {
        one.children as usize + 1
    } else {
        one.children as usize
    }
}

/// Tells whether each level is that one.
fn are_at(level: u32, levels: &[u32]) -> bool
    ensures { result ≡ are_at level levels.now }
{
    for one in levels {
        if *one != level {
            return false;
        }
    }
    true
}

/// Returns how many of those that wait, by their levels, do not lie in a structure.
#[tactic(auto, unfolding(crate::specs::Trees::place_of))]
pub fn place_of(one: &Record<'_>, levels: &[u32]) -> Result<usize, Rule>
    ensures is { Returns (λ n. n) result (place_of (structure one.now) levels.now) }
    ensures within { IfOk result (λ n. n ≤ length levels.now) }
{
    let inner = inner_count(one);
    if inner > levels.len() {
        return Err(Rule::Count);
    }
    let place = levels.len() - inner;
    if one.level > LEVEL_LIMIT || !are_at(one.level + 1, &levels[place..]) {
        return Err(Rule::Depth);
    }
    Ok(place)
}

/// Errs where not all that wait lie in the last structure, it lies in one itself, or something
/// stands behind it.
#[tactic(auto, unfolding(crate::specs::Trees::ended))]
fn ended(one: &Record<'_>, levels: &[u32], rest: &[u8]) -> Result<(), Rule>
    ensures { Returns (λ _. structure one.now) result
        (ended (structure one.now) levels.now rest.now) }
{
    let place = place_of(one, levels)?;
    if place != 0 {
        return Err(Rule::Count);
    }
    if one.level != 0 {
        return Err(Rule::Depth);
    }
    if rest.len() != 0 {
        return Err(Rule::Rest);
    }
    Ok(())
}

/// Returns the last structure, in which all lie that wait.
#[tactic(auto, unfolding(crate::specs::Trees::root_at))]
pub fn root_at<'a>(bytes: &'a [u8], levels: &[u32]) -> Result<Record<'a>, Fault>
    ensures { Returns structure result (root_at levels.now bytes.now) }
{
    let (one, rest) = record_at(bytes)?;
    match ended(&one, levels, rest) {
        Ok(()) => Ok(one),
        Err(rule) => Err(broken(rule, bytes)),
    }
}

/// What structures become, as their reader has it. A type of no use but this stands for it, so that
/// what is written can be said to be read as that.
pub trait Meaning {
    /// What a structure becomes.
    ghost Value: { Type 0 };

    /// What it becomes by what those became that lie right in it, or the rule that it breaks.
    ghost value_of: { ValueOf Value };
}

/// Records one after the other, and how many they are.
#[derive(Debug, Drop)]
pub struct Records {
    /// The records.
    pub bytes: Vec<u8>,
    /// How many they are.
    pub count: u32,
    ghost few: { count ≤ 4000000 },
}

impl Records {
    /// Returns no records.
    #[tactic(auto, using(crate::proofs::TreeLemmas::begins))]
    pub fn new<M: Meaning>(alloc: Global) -> Records
        ensures { (level : ℕ) → Adds M.value_of result.count result.bytes.items [] level }
    {
        Records {
            bytes: Vec::new(alloc),
            count: 0,
        }
    }

    /// Returns these records, and others behind them.
    pub fn joined<M: Meaning>(self, others: &Records) -> Result<Records, WriteError>
        ensures adds { IfOk result (λ r. (vs : List M.Value) (ws : List M.Value) (level : ℕ)
            → Adds M.value_of self.count self.bytes.items vs level
            → Adds M.value_of others.now.count others.now.bytes.items ws level
            → Adds M.value_of r.count r.bytes.items (vs ++ ws) level) }
        ensures err { IfErr result (λ e. RefusesCount e (self.count + others.now.count)) }
    {
        let count = self.count + others.count;
        if count > STRUCTURE_LIMIT {
            return Err(WriteError::TooLarge);
        }
        let mut bytes = self.bytes;
        bytes.extend_from_slice(others.bytes.as_slice())?;
        Ok(Records { bytes, count })
    }

    /// Returns these records, and that of the structure in which they lie.
    pub fn closed<M: Meaning>(self, one: &Record<'_>) -> Result<Records, WriteError>
        ensures adds { IfOk result (λ r. (vs : List M.Value) (v : M.Value)
            → Adds M.value_of self.count self.bytes.items vs (one.now.level + 1)
            → length vs ≡ inner_count (structure one.now)
            → M.value_of (structure one.now) vs ≡ Ok v
            → Adds M.value_of r.count r.bytes.items (v ∷ []) one.now.level) }
        ensures err { IfErr result (λ e. RefusesRecord e (self.count + 1) (structure one.now)) }
    {
        if one.level > LEVEL_LIMIT {
            return Err(WriteError::TooDeep);
        }
        if self.count >= STRUCTURE_LIMIT {
            return Err(WriteError::TooLarge);
        }
        let count = self.count + 1;
        let bytes = with_record(self.bytes, one)?;
        Ok(Records { bytes, count })
    }

    /// Returns the bytes of a whole tree: these records, and that of the structure in which they
    /// lie.
    pub fn finished<M: Meaning>(
        self,
        alloc: Global,
        root: &Record<'_>,
    ) -> Result<Vec<u8>, WriteError>
        ensures read { IfOk result (λ b. (vs : List M.Value)
            → Adds M.value_of self.count self.bytes.items vs 1
            → length vs ≡ inner_count (structure root.now) → root.now.level ≡ 0
            → whole_at M.value_of b.items ≡ Ok (structure root.now, vs)) }
        ensures small { IfOk result (λ b. length b.items ≤ 2 ^ 28) }
        ensures err { IfErr result (λ e.
            RefusesWhole e (self.count + 1) self.bytes.items (structure root.now)) }
    {
        if self.count >= STRUCTURE_LIMIT {
            return Err(WriteError::TooLarge);
        }
        let below = headed(alloc, self.count + 1, self.bytes.as_slice())?;
        let all = with_record(below, root)?;
        if all.len() > 0x1000_0000 {
            return Err(WriteError::TooLarge);
        }
        Ok(all)
    }
}

/// Returns how many records there are, and these.
#[tactic(auto, using(std::proofs::lemmas::List::append_assoc))]
fn headed(alloc: Global, count: u32, records: &[u8]) -> Result<Vec<u8>, AllocError>
    ensures { IfOk result (λ b. b.items ≡ word count ++ (word 0 ++ records.now)) }
{
    let mut all = Vec::new(alloc);
    put_word(&mut all, count)?;
    put_word(&mut all, 0)?;
    all.extend_from_slice(records)?;
    Ok(all)
}
