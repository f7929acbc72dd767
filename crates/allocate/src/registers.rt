// Which register a value gets: "Lowest free register first; else, among unlocked ones, one needing no spill, then the furthest next read, then the highest
// register". The locked registers are at most two.
ghost use Rattle.std.specs.Prelude.{◌≡◌, ◌<◌, ◌≤◌, length, IfSome};
ghost use Rattle.allocate.specs.Layout.{Wide};
ghost use Rattle.allocate.specs.Registers.{usable_bit, is_free, free_from, reloads, next_read, keeps_less, may_evict, better_of, victim_of, held_of, register_or_16, lock, Owners};

use crate::{Desk, Frame, steps};

// Whether bit r of a mask is set.
#[tactic(auto, unfolding(crate::specs::Registers::usable_bit))]
fn bit(mask: u32, r: usize) -> bool
    requires { r < 16 }
    ensures { result ≡ usable_bit mask r }
{
    (mask >> r) % 2 == 1
}

#[tactic(auto, unfolding(crate::specs::Registers::is_free))]
fn is_free(owner: &[u32; 16], mask: u32, r: usize) -> bool
    requires { r < 16 }
    ensures { result ≡ is_free owner.now mask r }
{
    bit(mask, r) && owner[r] == 0
}

// The lowest usable register that is free.
pub fn free_register(owner: &[u32; 16], mask: u32) -> Option<usize>
    ensures found { register_or_16 result ≡ free_from 16 0 owner.now mask }
    ensures register { IfSome result (λ r. r < 16) }
{
    for r in 0..16 {
        if is_free(owner, mask, r) {
            return Some(r);
        }
    }
    None
}

fn may_evict(owner: &[u32; 16], mask: u32, locked: &[usize], r: usize) -> bool
    requires register { r < 16 }
    requires locks { length locked.now ≤ 2 }
    ensures { result ≡ may_evict owner.now mask (lock locked.now 0) (lock locked.now 1) r }
{
    !locked.contains(&r) && bit(mask, r) && owner[r] != 0
}

// How many registers are held.
#[tactic(auto, unfolding(crate::specs::Registers::held_of, crate::specs::Registers::count_one))]
pub fn held(owner: &[u32; 16]) -> u32
    ensures count { result ≡ held_of 16 owner.now }
    ensures most { result ≤ 16 }
{
    let mut count = 0;
    for r in 0..16 {
        if owner[r] != 0 {
            count += 1;
        }
    }
    count
}

// A node whose value can be dropped without saving it: a slot holds it, or memory still does.
#[tactic(auto, unfolding(crate::specs::Registers::reloads))]
pub fn reloadable(work: &[u32], frame: Frame, node: usize) -> bool
    requires { Wide frame work.now × (node < frame.nodes) }
    ensures { result ≡ reloads frame work.now node }
{
    let spilled = frame.spilled_at(node);
    let fresh = frame.fresh_at(node);
    work[spilled] != 0 || work[fresh] != 0
}

// The position + 1 of the next task that reads a node, and past all positions if none does: the number orders both as the choice needs it.
#[tactic(auto, unfolding(crate::specs::Registers::next_read))]
fn next_read(work: &[u32], frame: Frame, node: usize) -> u64
    requires { Wide frame work.now × (node < frame.nodes) }
    ensures { result ≡ next_read frame work.now node }
{
    let at = frame.next_at(node);
    let position = work[at];
    if position == 0 {
        0x1_0000_0000
    } else {
        position as u64
    }
}

// Whether it is as good to drop node a as to drop node b, or better.
fn keeps_less(work: &[u32], frame: Frame, a: usize, b: usize) -> bool
    requires { Wide frame work.now × ((a < frame.nodes) × (b < frame.nodes)) }
    ensures { result ≡ keeps_less frame work.now a b }
{
    let one = reloadable(work, frame, a);
    let two = reloadable(work, frame, b);
    if one != two {
        return one;
    }
    next_read(work, frame, b) <= next_read(work, frame, a)
}

#[tactic(auto, unfolding(crate::specs::Registers::better_of))]
fn better(
    work: &[u32],
    owner: &[u32; 16],
    frame: Frame,
    locked: &[usize],
    best: Option<usize>,
    r: usize,
) -> Option<usize>
    requires owned { Wide frame work.now × Owners frame owner.now }
    requires registers { (r < 16) × IfSome best (λ k. k < 16) }
    requires locks { length locked.now ≤ 2 }
    ensures found { register_or_16 result ≡ better_of frame work.now owner.now (lock locked.now 0) (lock locked.now 1) (register_or_16 best) r }
    ensures register { IfSome result (λ k. k < 16) }
{
    if !may_evict(owner, frame.mask, locked, r) {
        return best;
    }
    let Some(kept) = best else {
        return Some(r);
    };
    let a = steps::option_value(owner[r]);
    let b = steps::option_value(owner[kept]);
    if keeps_less(work, frame, a as usize, b as usize) {
        return Some(r);
    }
    best
}

// The register to empty, unless every usable one is locked. At most two are, an operation's operands: a slice, since one, two or none is what callers have.
#[tactic(auto, unfolding(crate::specs::Registers::victim_of))]
pub fn victim(work: &[u32], owner: &[u32; 16], frame: Frame, locked: &[usize]) -> Option<usize>
    requires owned { Wide frame work.now × Owners frame owner.now }
    requires locks { length locked.now ≤ 2 }
    ensures found { register_or_16 result ≡ victim_of 16 frame work.now owner.now (lock locked.now 0) (lock locked.now 1) }
    ensures register { IfSome result (λ r. r < 16) }
{
    let mut best = None;
    for r in 0..16 {
        best = better(work, owner, frame, locked, best, r);
    }
    best
}

// The two choices by what a desk has; they only read, so that they stand above for who has the work table and the owners alone.
impl Desk<'_> {
    pub fn reloadable(&self, frame: Frame, node: usize) -> bool
        requires { Wide frame self.now.work.now × (node < frame.nodes) }
        ensures { result ≡ reloads frame self.now.work.now node }
    {
        reloadable(self.work, frame, node)
    }

    pub fn victim(&self, frame: Frame, locked: &[usize]) -> Option<usize>
        requires owned { Wide frame self.now.work.now × Owners frame self.now.allocator.owner }
        requires locks { length locked.now ≤ 2 }
        ensures found { register_or_16 result ≡ victim_of 16 frame self.now.work.now self.now.allocator.owner (lock locked.now 0) (lock locked.now 1) }
        ensures register { IfSome result (λ r. r < 16) }
    {
        victim(self.work, &self.allocator.owner, frame, locked)
    }
}
