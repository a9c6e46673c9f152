// Where an address lies, and the word there.
ghost use Rattle.std.specs.Prelude.{◌≡◌, List, ℕ, length};
ghost use Rattle.machine_step.specs.View.{view, words_of, from_end};
ghost use Rattle.machine_step.specs.Memory as is;
ghost use Rattle.machine_step.specs.Memory.{heap_ok, place_of, word_in};
ghost use Rattle.machine_step.specs.Forms.{Inside, Wrote};

// Kept as one enum: of an Option of the other two no match would be plainer.
#[derive(Clone, Copy)]
pub enum Place {
    Stack(usize),
    Heap(usize),
    Nowhere,
}

// 2 to 1,048,576 whole blocks of so many words.
#[tactic(auto, unfolding(crate::specs::Memory::heap_ok))]
pub fn heap_ok(block: usize, size: usize) -> bool
    ensures { result ≡ heap_ok block size }
{
    1 <= block && size % block == 0 && 2 <= size / block && size / block <= 1048576
}

#[tactic(auto, unfolding(crate::specs::Memory::place_of))]
fn place_of(depth: usize, size: usize, address: u64) -> Place
    ensures { (result ≡ place_of depth size address) × Inside depth size result }
{
    if address % 8 != 0 || 1099511627776 <= address {
        return Place::Nowhere;
    }
    let i = ((1099511627768 - address) / 8) as usize;
    if i < depth {
        return Place::Stack(i);
    }
    if address < 65536 {
        return Place::Nowhere;
    }
    let k = ((address - 65536) / 8) as usize;
    if k < size {
        return Place::Heap(k);
    }
    Place::Nowhere
}

pub fn load(stack: &[u64], heap: &[u64], address: u64) -> Option<u64>
    ensures { result ≡ word_in (from_end stack.now) (words_of heap.now) (place_of (length stack.now) (length heap.now) address) }
{
    match place_of(stack.len(), heap.len(), address) {
        Place::Stack(k) => Some(stack[stack.len() - 1 - k]),
        Place::Heap(k) => Some(heap[k]),
        Place::Nowhere => None,
    }
}

// Whether v was written.
pub fn store(stack: &mut [u64], heap: &mut [u64], address: u64, v: u64) -> bool
    ensures { (length stack.new ≡ length stack.old) × ((R : List ℕ) → Wrote (view R stack.old heap.old) (is.store (view R stack.old heap.old) address v) (view R stack.new heap.new) result) }
{
    match place_of(stack.len(), heap.len(), address) {
        Place::Stack(k) => {
            stack[stack.len() - 1 - k] = v;
            true
        }
        Place::Heap(k) => {
            heap[k] = v;
            true
        }
        Place::Nowhere => false,
    }
}
