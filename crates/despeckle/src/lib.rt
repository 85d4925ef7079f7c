// Lone pixels of a plane put out (paper 02, Req 06). A window of three by three pixels slides along each row; its number is looked up in the
// published table.
#![tactic(auto)]

ghost use Rattle.std.specs.Prelude.{◌≡◌, ℕ, ◌+◌, ◌-◌, ◌*◌, ◌/◌, ◌^◌, ◌<◌, ◌≤◌, length};
ghost use Rattle.bits.specs.Bit.{bit, up_to, overwritten};
ghost use Rattle.bits.specs.Refusal.{number_in};
ghost use Rattle.despeckle.specs.Plane.{bordered, around, lit_rule, new_word};
ghost use Rattle.despeckle.specs.Window.{IsTable, IsPlane, column_of, Passes};
ghost use Rattle.despeckle.specs.Steps.{Steps};
ghost use Rattle.despeckle.specs.Calls.{plane_refusal, despeckle_answer, despeckled_out};

use bits::Refusal;

pub mod table;
mod window;

use window::Window;

// The longest slice of words that is accepted.
const LONGEST: usize = 2048;

// A word outside the plane.
const DARK: u64 = 0;

// The table, whose entries are those of the rule.
pub fn published_table() -> [u8; 512]
    ensures { result ≡ up_to 512 lit_rule }
{
    table::TABLE
}

// The table, copied once and lent: read where it stands, a constant array is built anew at each look-up.
#[derive(Drop)]
struct Lookup {
    entries: [u8; 512],
    ghost published: { IsTable entries },
}

impl Lookup {
    fn new() -> Lookup {
        Lookup {
            entries: published_table(),
        }
    }

    // A window's entry, as a bit of a word.
    fn lit(&self, window: Window) -> u64
        ensures { result ≡ lit_rule window.number }
    {
        u64::from(self.entries[window.number as usize])
    }
}

// A word of a row, and those above and below it.
#[derive(Clone, Copy)]
struct Neighbours {
    above: u64,
    own: u64,
    below: u64,
}

impl Neighbours {
    // The lowest pixel of each row, where a window has its right column.
    fn column(self) -> u64
        ensures { result ≡ column_of self.above self.own self.below }
    {
        ((self.above % 2) << 6) | ((self.own % 2) << 3) | (self.below % 2)
    }

    // internal: a place in a word. The pixels from there up.
    fn upper(self, place: u64) -> Neighbours
        requires { place < 64 }
        ensures { result ≡ record { above = self.above / 2 ^ place; own = self.own / 2 ^ place; below = self.below / 2 ^ place } }
    {
        Neighbours {
            above: self.above >> place,
            own: self.own >> place,
            below: self.below >> place,
        }
    }
}

// What a window that moved on leaves: the window there, and the new pixels of the columns that it passed, the leftmost in the highest bit.
#[derive(Clone, Copy)]
struct Slid {
    window: Window,
    word: u64,
}

// internal: a step by at most eight columns, those in the low bits. Eight such steps, from the left.
fn slide_eight<Step: Fn(Window, Neighbours) -> Slid>(
    width: u64,
    step: Step,
    start: Window,
    rows: Neighbours,
) -> Slid
    requires few { width ≤ 8 }
    requires steps { Steps width (Step.pre step) (Step.post step) }
    ensures { Passes (8 * width) start.number rows.above rows.own rows.below result.window.number result.word }
{
    let mut window = start;
    let mut word: u64 = 0;
    for part in (0..8u64).rev() {
        let slid = step(window, rows.upper(width * part));
        word = (word << width) | slid.word;
        window = slid.window;
    }
    Slid { window, word }
}

// The window moves on by 64 columns, eight at a time: so the compiler unrolls the eight.
fn slide_word(table: &Lookup, start: Window, rows: Neighbours) -> Slid
    ensures { Passes 64 start.number rows.above rows.own rows.below result.window.number result.word }
{
    let by_one = |window: Window, rows: Neighbours|
        ensures { Passes 1 window.number rows.above rows.own rows.below result.window.number result.word }
    {
        let word = table.lit(window);
        Slid {
            window: window.slide(rows.column()),
            word,
        }
    };
    let by_eight = |window: Window, rows: Neighbours|
        ensures { Passes 8 window.number rows.above rows.own rows.below result.window.number result.word }
    { slide_eight(1, by_one, window, rows) };
    slide_eight(8, by_eight, start, rows)
}

// The pixels of `rows` rows of `words` words each.
#[derive(Clone, Copy)]
struct Plane<'a> {
    pixels: &'a [u64],
    rows: usize,
    words: usize,
    ghost whole: { IsPlane pixels.now rows words },
}

impl<'a> Plane<'a> {
    // Word `at` of a row counted from 1; dark outside the plane.
    fn word_at(&self, row: usize, at: usize) -> u64
        ensures { (k : ℕ) → k < 64 → bit result k ≡ bordered self.now.pixels.now self.now.words self.now.rows row (64 * at + (64 - k)) }
    {
        if row == 0 || self.rows < row || self.words <= at {
            return DARK;
        }
        self.pixels[(row - 1) * self.words + at]
    }

    // internal: the same word moved on by two pixels, the next word's first two at its end.
    fn ahead(&self, row: usize, at: usize) -> u64
        requires { at < 2048 }
        ensures { (k : ℕ) → k < 64 → bit result k ≡ bordered self.now.pixels.now self.now.words self.now.rows row (64 * at + (66 - k)) }
    {
        (self.word_at(row, at) << 2) | (self.word_at(row, at + 1) >> 62)
    }

    // internal: the window around the first pixel of the row.
    fn first_window(&self, row: usize) -> Window
        requires { row < 2048 }
        ensures { result.number ≡ around self.now.pixels.now self.now.words self.now.rows row 0 }
    {
        let above = self.word_at(row, 0) >> 62;
        let own = self.word_at(row + 1, 0) >> 62;
        let below = self.word_at(row + 2, 0) >> 62;
        Window {
            number: (above << 6) | (own << 3) | below,
        }
    }

    // internal: a row, and as many words as it has. Its new words.
    fn despeckle_row(&self, table: &Lookup, row: usize, out: &mut [u64])
        requires { (row < self.now.rows) × (length out.old ≡ self.now.words) }
        ensures { out.new ≡ up_to self.now.words (λ at. new_word self.now.pixels.now self.now.words self.now.rows (row * self.now.words + at)) }
    {
        let mut window = self.first_window(row);
        for (at, word) in out.iter_mut().enumerate() {
            let rows = Neighbours {
                above: self.ahead(row, at),
                own: self.ahead(row + 1, at),
                below: self.ahead(row + 2, at),
            };
            let slid = slide_word(table, window, rows);
            *word = slid.word;
            window = slid.window;
        }
    }

    // internal: room for the words. The new plane.
    fn despeckle_rows(&self, out: &mut [u64])
        requires { self.now.words * self.now.rows ≤ length out.old }
        ensures { out.new ≡ overwritten (self.now.words * self.now.rows) (new_word self.now.pixels.now self.now.words self.now.rows) out.old }
    {
        let table = Lookup::new();
        for row in 0..self.rows {
            let first = row * self.words;
            self.despeckle_row(&table, row, &mut out[first..first + self.words]);
        }
    }
}

// The lowest of refusals 9, 10 and 13 that applies to a plane in `own` words, with `other` words for the new one. The product of rows and words is made
// only of factors that are small.
fn check(own: usize, rows: usize, words: usize, other: usize) -> Result<(), Refusal>
    ensures { number_in result ≡ plane_refusal own rows words other }
{
    if LONGEST < own || LONGEST < other {
        return Err(Refusal::Range);
    }
    if rows == 0 || words == 0 {
        return Err(Refusal::Plane);
    }
    if LONGEST < rows || LONGEST < words {
        return Err(Refusal::Short);
    }
    let size = words * rows;
    if other < size {
        return Err(Refusal::Short);
    }
    if size != own {
        return Err(Refusal::Plane);
    }
    Ok(())
}

// A plane of `rows` rows of `words` words, its lone pixels put out, into `out`: a pixel stays lit if one around it is lit. The answer is the refusal, 0 if it
// is carried out.
pub fn despeckle(plane: &[u64], rows: usize, words: usize, out: &mut [u64]) -> u8
    ensures { (result ≡ despeckle_answer plane.now rows words out.old)
        × (out.new ≡ despeckled_out plane.now rows words out.old) }
{
    let outcome = check(plane.len(), rows, words, out.len());
    if outcome.is_ok() {
        let plane = Plane {
            pixels: plane,
            rows,
            words,
        };
        plane.despeckle_rows(out);
    }
    bits::number(outcome)
}
