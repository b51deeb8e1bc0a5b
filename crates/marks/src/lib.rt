// Mark sets: a set of marks is one word, and mark i is bit i (docs/RULES.md, "Tables, walks and lassos").
// Relies on nothing. What `has` means is in specs/Mark.antt; the laws, over every width, are in proofs/Laws.antt.
#![tactic(auto)]

ghost use Rattle.std.specs.Prelude.{◌≡◌, ℕ, ◌<◌, true, ◌↔◌};
ghost use Rattle.marks.specs.Mark.{Has, union, without, Meets, Covers, first_marks, width};

// A set of marks, and how many marks one can hold. specs/Mark.antt has the same number, as `width`.
pub type Marks = u32;

pub const WIDTH: u32 = 32;

// Whether the set has the mark.
pub fn has_mark(set: Marks, mark: u32) -> bool
    ensures { (result ≡ true) ↔ Has mark set }
{
    mark < WIDTH && (set >> mark) % 2 == 1
}

// The marks of either set.
#[tactic(auto, unfolding(crate::specs::Mark::union))]
pub fn join(a: Marks, b: Marks) -> Marks
    ensures { result ≡ union a b }
{
    a | b
}

// The marks of the first set that the second has not.
#[tactic(auto, unfolding(crate::specs::Mark::without))]
pub fn leave(a: Marks, b: Marks) -> Marks
    ensures { result ≡ without a b }
{
    a & b ^ a
}

// Whether some mark is in both sets.
pub fn meets(a: Marks, b: Marks) -> bool
    ensures { (result ≡ true) ↔ Meets a b }
{
    a & b != 0
}

// Whether the first set has each mark of the second.
pub fn covers(a: Marks, b: Marks) -> bool
    ensures { (result ≡ true) ↔ Covers a b }
{
    a & b == b
}

// The set of the marks 0 to k - 1; every mark of the width where k is the width or above.
pub fn first_marks(k: u32) -> Marks
    ensures { result ≡ first_marks width k }
{
    if WIDTH <= k {
        return u32::MAX;
    }
    (1 << k) - 1
}

// The set of one mark alone; none where the mark is the width or above.
pub fn just(mark: u32) -> Marks
    ensures { (i : ℕ) → Has i result ↔ ((i ≡ mark) × (mark < width)) }
{
    if WIDTH <= mark {
        return 0;
    }
    1 << mark
}
