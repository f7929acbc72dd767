// Delay lines in one lent area: where each starts, the cell at its cursor, and the store that writes and advances.
ghost use Rattle.std.specs.Prelude.{◌≡◌, List, ℕ, ◌+◌, ◌%◌, ◌<◌, ◌≤◌, length, set};
ghost use Rattle.tables.specs.Zeros.{zeros};
ghost use Rattle.block.specs.Limits.{most_delays, most_delay_samples};
ghost use Rattle.memory.specs.Lines.{memories, read_delay, store_delay};
ghost use Rattle.memory.specs.Fit.{line_lengths, line_bases, Small, Fit, stored};

use block::limits::MOST_DELAYS;

// The delay table of a block, and where each line starts in the area, found once for a call: a sum at each access would make a run quadratic in the
// delays. No heap: `line_bases` makes an array with room for the most delays that 6 allows, which the caller keeps.
#[derive(Clone, Copy)]
pub struct Lines<'a> {
    pub delays: &'a [u32],
    pub bases: &'a [u32; MOST_DELAYS],
    ghost based: { bases.now ≡ line_bases delays.now },
}

// What lives from sample to sample besides the parameter values, in three lent tables.
#[derive(Drop)]
pub struct Memories<'a> {
    pub held: &'a mut [u32],
    pub area: &'a mut [u32],
    pub cursors: &'a mut [u32],
}

// Where every line starts, into an array that is lent and holds zeros: so a caller can keep the array where it is, and none of its 16 KiB is moved.
pub fn fill_bases(delays: &[u32], bases: &mut [u32; MOST_DELAYS])
    requires small { Small delays.now }
    requires empty { bases.old ≡ zeros most_delays }
    ensures { bases.new ≡ line_bases delays.now }
{
    let mut base: u32 = 0;
    for i in 0..delays.len() / 2 {
        bases[i] = base;
        base += delays[2 * i];
    }
}

// Where every line starts.
pub fn line_bases(delays: &[u32]) -> [u32; MOST_DELAYS]
    requires { Small delays.now }
    ensures { result ≡ line_bases delays.now }
{
    let mut bases = [0u32; MOST_DELAYS];
    fill_bases(delays, &mut bases);
    bases
}

// The one store of a delay: the value in the line's cell at the cursor; answers the next cursor, round the line's end.
pub fn store_and_advance(line: &mut [u32], cursor: u32, value: u32) -> u32
    requires inside { cursor < length line.old }
    requires small { length line.old ≤ most_delay_samples }
    ensures { stored line.new result ≡ stored (set line.old cursor value) ((cursor + 1) % length line.old) }
{
    let at = cursor as usize;
    line[at] = value;
    ((at + 1) % line.len()) as u32
}

// The cell at line i's cursor. The area and the cursors as they are read, so that it can be asked where nothing may be written.
pub fn read_delay(lines: &Lines<'_>, area: &[u32], cursors: &[u32], i: usize) -> u32
    requires fit { Fit (line_lengths lines.now.delays.now) area.now cursors.now }
    requires inside { i < length cursors.now }
    ensures { (states : List ℕ) → result ≡ read_delay (line_lengths lines.now.delays.now) (memories states area.now cursors.now) i }
{
    let start = lines.bases[i] as usize;
    let cursor = cursors[i] as usize;
    area[start + cursor]
}

// The store of line i, which is lent on as the part of the area from its base to base plus length.
pub fn store_delay(lines: &Lines<'_>, area: &mut [u32], cursors: &mut [u32], i: usize, value: u32)
    requires fit { Fit (line_lengths lines.now.delays.now) area.old cursors.old }
    requires inside { i < length cursors.old }
    ensures { (states : List ℕ) → memories states area.new cursors.new ≡ store_delay (line_lengths lines.now.delays.now) (memories states area.old cursors.old) i value }
{
    let base = lines.bases[i] as usize;
    let end = base + lines.delays[2 * i] as usize;
    let next = store_and_advance(&mut area[base..end], cursors[i], value);
    cursors[i] = next;
}

// Both for the memories of a run, in which the states stand too.
impl Memories<'_> {
    ghost use Rattle.memory.specs.Lent.{the_lengths, the_memories, LinesFit, KeepsTables};

    pub fn read_delay(&self, lines: &Lines<'_>, i: usize) -> u32
        requires fit { LinesFit lines.now self.now }
        requires inside { i < length self.now.cursors.now }
        ensures { result ≡ read_delay (the_lengths lines.now) (the_memories self.now) i }
    {
        read_delay(lines, self.area, self.cursors, i)
    }

    pub fn store_delay(&mut self, lines: &Lines<'_>, i: usize, value: u32)
        requires fit { LinesFit lines.now self.old }
        requires inside { i < length self.old.cursors.now }
        ensures stored { the_memories self.new ≡ store_delay (the_lengths lines.now) (the_memories self.old) i value }
        ensures same_tables { KeepsTables self.old self.new }
    {
        store_delay(lines, self.area, self.cursors, i, value);
    }
}
