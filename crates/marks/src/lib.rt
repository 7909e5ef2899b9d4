// Marks of up to 256 edges in four words, edge 1 the most significant bit of the first word: how many are set, and where.
#![tactic(auto)]

ghost use Rattle.std.specs.Prelude.{◌≡◌, true, false, ℕ, ◌-◌, ◌≤◌, ◌<◌, MatchOption};
ghost use Rattle.marks.specs.Marks.{bit_of, mark_at, set_below, places_of, FirstSet};

// 256 marks.
#[repr(C)]
#[derive(Clone, Copy)]
pub struct Marks {
    pub words: [u64; 4],
}

// Places of marks, counted from 1, ascending, 0 past them.
#[repr(C)]
#[derive(Clone, Copy)]
pub struct Places {
    pub count: u32,
    pub place: [u32; 256],
}

// How many marks are set: the ones of the four words.
pub fn count_set(marks: Marks) -> u32
    ensures { result ≡ set_below 256 (mark_at marks) }
{
    marks.words.iter().map(|word| word.count_ones()).sum()
}

// The first bit of a word that is set, from a bit on: the leading zeros of the word without the bits before.
fn next_bit(word: u64, from: u32) -> Option<u32>
    requires { from < 64 }
    ensures { FirstSet (bit_of word) from 64 result }
{
    let bit = (word & (u64::MAX >> from)).leading_zeros();
    if bit < 64 { Some(bit) } else { None }
}

// The first place past `after` whose mark is set.
pub fn next_place(marks: Marks, after: u32) -> Option<u32>
    ensures { MatchOption result ((i : ℕ) → after ≤ i → i < 256 → mark_at marks i ≡ false) (λ place. (after < place) × (place ≤ 256) × (mark_at marks (place - 1) ≡ true) × ((i : ℕ) → after ≤ i → i < place - 1 → mark_at marks i ≡ false)) }
{
    let mut from = after % 64;
    for word in after / 64..4 {
        if let Some(bit) = next_bit(marks.words[word as usize], from) {
            return Some(word * 64 + bit + 1);
        }
        from = 0;
    }
    None
}

// Whether the mark at a place is set, places counted from 0.
pub fn is_marked(marks: Marks, place: u32) -> bool
    requires { place < 256 }
    ensures { result ≡ mark_at marks place }
{
    let word = marks.words[(place / 64) as usize];
    (word >> (63 - place % 64)) & 1 == 1
}

// The places of all marks set, ascending, each found from the one before.
pub fn places_of(marks: Marks) -> Places
    ensures { result ≡ places_of (mark_at marks) }
{
    let mut list = Places {
        count: 0,
        place: [0; 256],
    };
    let mut last = 0;
    while let Some(place) = next_place(marks, last) {
        list.place[list.count as usize] = place;
        list.count += 1;
        last = place;
    }
    list
}
