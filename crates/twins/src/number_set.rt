ghost use Rattle.std.specs.Prelude.{◌≡◌, ℕ, ◌+◌, ◌<◌, ◌≤◌, true, false, IfOk, IsTrue, MatchOption, length, map, replicate, slice_set};
ghost use Rattle.std.specs.BinaryHeap.{heap_capacity, heap_items};
ghost use Rattle.task_core.specs.Rules.{IsLeast};
ghost use Rattle.twins.specs.Numbers.{IsHeapOf, IsSettled, IsTop, contains, is_in};

use peg_text::NoMemory;
use std::alloc::Global;
use std::cmp::Reverse;
use std::collections::BinaryHeap;
use std::marker::Model;

/// Whether a number is in a set.
#[derive(Clone, Copy)]
pub enum Mark {
    /// It is not, and has no entry in the heap.
    Out,
    /// It was taken out, and its entry is still in the heap.
    Stale,
    /// It is, and has an entry in the heap.
    In,
}

/// A set of numbers below a bound, of which the least is found at once.
///
/// A number that is taken out leaves its entry in the heap until it comes to the top. So each change takes time
/// logarithmic in the bound, over all changes, and none takes memory.
#[derive(Drop)]
pub struct NumberSet {
    heap: BinaryHeap<Reverse<u32>>,
    marks: Vec<Mark>,
}

impl Model for NumberSet {
    ghost use Rattle.std.specs.BinaryHeap.{heap_capacity, heap_items};
    ghost use Rattle.std.specs.Prelude.{Bool, List, map};
    ghost use Rattle.twins.specs.Numbers.{IsSetOf, is_in};

    ghost Value = { List Bool };

    ghost view = { λ m. map is_in m.marks.items };

    ghost invariant = { λ m. IsSetOf m.marks.items (heap_items m.heap) (heap_capacity m.heap) };
}

impl NumberSet {
    /// No number below the bound.
    pub(crate) fn empty(alloc: Global, bound: u32) -> Result<NumberSet, NoMemory>
        ensures { IfOk result (λ s. s ≡ replicate bound false) }
    {
        let heap = BinaryHeap::with_capacity(alloc, bound as usize)?;
        let marks = vec![in alloc; Mark::Out; bound as usize]?;
        Ok(NumberSet { heap, marks })
    }

    /// Each number below the bound.
    pub(crate) fn full(alloc: Global, bound: u32) -> Result<NumberSet, NoMemory>
        ensures { IfOk result (λ s. s ≡ replicate bound true) }
    {
        let mut numbers = NumberSet::empty(alloc, bound)?;
        for number in 0..bound {
            numbers.set(number, true);
        }
        Ok(numbers)
    }

    /// The least number of the set.
    pub(crate) fn least(&self) -> Option<u32>
        ensures { MatchOption result ((t : ℕ) → contains self.now t ≡ false) (λ t. IsLeast (contains self.now) t) }
    {
        let Reverse(number) = top_of(&self.heap)?;
        Some(number)
    }

    /// Puts a number in, or takes it out.
    pub(crate) fn set(&mut self, number: u32, member: bool)
        requires { number < length self.old }
        ensures { self.new ≡ slice_set self.old number member }
    {
        write_mark(&mut self.heap, &mut self.marks, number, member);
        settle(&mut self.heap, &mut self.marks);
    }
}

// Marks a number, and gives it an entry if it needs one.
fn write_mark(heap: &mut BinaryHeap<Reverse<u32>>, marks: &mut [Mark], number: u32, member: bool)
    requires heap { IsHeapOf marks.old (heap_items heap.old) }
    requires below { number < length marks.old }
    requires room { length marks.old ≤ heap_capacity heap.old }
    ensures heap { IsHeapOf marks.new (heap_items heap.new) }
    ensures marked { map is_in marks.new ≡ slice_set (map is_in marks.old) number member }
    ensures room { heap_capacity heap.old ≤ heap_capacity heap.new }
{
    let at = number as usize;
    match marks[at] {
        Mark::Out => {
            if member {
                heap.push(Reverse(number)).unwrap();
                marks[at] = Mark::In;
            }
        }
        Mark::Stale | Mark::In => marks[at] = if member { Mark::In } else { Mark::Stale },
    }
}

// Takes entries out of the heap until its top is in the set.
fn settle(heap: &mut BinaryHeap<Reverse<u32>>, marks: &mut [Mark])
    requires { IsHeapOf marks.old (heap_items heap.old) }
    ensures heap { IsHeapOf marks.new (heap_items heap.new) }
    ensures settled { IsSettled marks.new (heap_items heap.new) }
    ensures same { map is_in marks.new ≡ map is_in marks.old }
    ensures room { heap_capacity heap.new ≡ heap_capacity heap.old }
{
    while drop_stale(heap, marks) {}
}

// The entry at the top of the heap.
fn top_of(heap: &BinaryHeap<Reverse<u32>>) -> Option<Reverse<u32>>
    ensures { MatchOption result (length (heap_items heap.now) ≡ 0) (λ x. IsTop (heap_items heap.now) x) }
{
    let top = heap.peek()?;
    Some(*top)
}

// Takes the top out of the heap if it is stale. False where it is not.
fn drop_stale(heap: &mut BinaryHeap<Reverse<u32>>, marks: &mut [Mark]) -> bool
    requires { IsHeapOf marks.old (heap_items heap.old) }
    ensures heap { IsHeapOf marks.new (heap_items heap.new) }
    ensures settled { result ≡ false → IsSettled marks.new (heap_items heap.new) }
    ensures shorter { IsTrue result → length (heap_items heap.new) + 1 ≡ length (heap_items heap.old) }
    ensures same { map is_in marks.new ≡ map is_in marks.old }
    ensures room { heap_capacity heap.new ≡ heap_capacity heap.old }
{
    match top_of(heap) {
        Some(Reverse(number)) => match marks[number as usize] {
            Mark::In => false,
            _ => {
                let _ = heap.pop();
                marks[number as usize] = Mark::Out;
                true
            }
        },
        None => false,
    }
}
