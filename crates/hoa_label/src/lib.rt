// Labels of the Hanoi format (docs/RULES.md, "The Hanoi format"): a label behind its `[`, read as a 64-bit set of valuations. Relies on `hoa_tokens`.
// What a label is, which tokens are admitted and what the set means is in specs/.
#![tactic(auto)]

ghost use Rattle.std.specs.Prelude.{◌≡◌, List, ℕ, ◌≤◌};
ghost use Rattle.hoa_tokens.specs.Stream.{token_of};
ghost use Rattle.hoa_label.specs.Labels.{prop_set, turned, wanted_word, wanted_sign, wanted, behind_sign, behind};
ghost use Rattle.hoa_label.specs.Label.{most_levels};
ghost use Rattle.hoa_label.specs.Reading.{LabelAt};
ghost use Rattle.hoa_label.specs.inner.Levels.{FactorAt, LevelAt};

use hoa_tokens::{BadToken, Found, Kind, Sign, Word, token_at};

// What a token is where a factor is wanted: a factor with its valuations, `!`, `(`, or a fault.
#[derive(Clone, Copy)]
pub enum Wanted {
    Set(u64),
    Not,
    Deeper,
    Wrong(u32),
}

// What a token is behind a factor: `&`, `|`, what shuts the level, or a fault.
#[derive(Clone, Copy)]
pub enum Behind {
    And,
    Or,
    Shut,
    Wrong(u32),
}

// A label that is read: its set of valuations, and the byte behind its `]`.
#[derive(Clone, Copy)]
pub struct LabelRead {
    pub set: u64,
    pub next: usize,
}

// The numbers of a fault: no label begins so; none of the subset does; a limit is passed.
const SYNTAX: u32 = 40;

const SUBSET: u32 = 41;

const LIMIT: u32 = 42;

// Brackets nest at most so deep: a limit of ours, since `level` calls itself for each.
const MOST_LEVELS: u32 = 256;

// All 64 valuations of 6 propositions.
const FULL: u64 = u64::MAX;

// For each proposition the valuations in which it is true: v is one for proposition i if bit i of v is 1.
const PROPS: [u64; 6] = [
    0xAAAA_AAAA_AAAA_AAAA,
    0xCCCC_CCCC_CCCC_CCCC,
    0xF0F0_F0F0_F0F0_F0F0,
    0xFF00_FF00_FF00_FF00,
    0xFFFF_0000_FFFF_0000,
    0xFFFF_FFFF_0000_0000,
];

// The valuations in which a proposition is true; none from the seventh proposition on.
#[tactic(auto, unfolding(crate::specs::Labels::prop_set))]
fn prop_set(prop: u32) -> u64
    ensures { result ≡ prop_set prop }
{
    PROPS.get(prop as usize).copied().unwrap_or(0)
}

// The set, or the valuations outside it.
#[tactic(auto, unfolding(crate::specs::Labels::full))]
fn turn(flipped: bool, set: u64) -> u64
    ensures { result ≡ turned flipped set }
{
    if flipped { FULL ^ set } else { set }
}

// What a word is where a factor is wanted.
#[tactic(auto, unfolding(crate::specs::Labels::full))]
fn wanted_word(word: Word) -> Wanted
    ensures { result ≡ wanted_word word }
{
    match word {
        Word::True => Wanted::Set(FULL),
        Word::False => Wanted::Set(0),
        _ => Wanted::Wrong(SYNTAX),
    }
}

// What a mark is where a factor is wanted, with room for one more level or not.
fn wanted_sign(sign: Sign, room: bool) -> Wanted
    ensures { result ≡ wanted_sign room sign }
{
    match sign {
        Sign::Not => Wanted::Not,
        Sign::ParenLeft if room => Wanted::Deeper,
        Sign::ParenLeft => Wanted::Wrong(LIMIT),
        _ => Wanted::Wrong(SYNTAX),
    }
}

// What a token is where a factor is wanted, with a propositions.
#[tactic(auto, unfolding(crate::specs::Labels::wanted))]
fn wanted_token(kind: Kind, a: u32, room: bool) -> Wanted
    ensures { (text : List ℕ) (p q : ℕ) → result ≡ wanted a room (token_of text p q kind) }
{
    match kind {
        Kind::Int(i) if i < a => Wanted::Set(prop_set(i)),
        Kind::Word(word) => wanted_word(word),
        Kind::Sign(sign) => wanted_sign(sign, room),
        Kind::Int(_) | Kind::Alias | Kind::Abort => Wanted::Wrong(SUBSET),
        _ => Wanted::Wrong(SYNTAX),
    }
}

// What a mark is behind a factor, on the outermost level or not.
fn behind_sign(sign: Sign, outermost: bool) -> Behind
    ensures { result ≡ behind_sign outermost sign }
{
    match sign {
        Sign::And => Behind::And,
        Sign::Or => Behind::Or,
        Sign::ParenRight if !outermost => Behind::Shut,
        Sign::BracketRight if outermost => Behind::Shut,
        _ => Behind::Wrong(SYNTAX),
    }
}

// What a token is behind a factor.
#[tactic(auto, unfolding(crate::specs::Labels::behind))]
fn behind_token(kind: Kind, outermost: bool) -> Behind
    ensures { (text : List ℕ) (p q : ℕ) → result ≡ behind outermost (token_of text p q kind) }
{
    match kind {
        Kind::Sign(sign) => behind_sign(sign, outermost),
        Kind::Abort => Behind::Wrong(SUBSET),
        _ => Behind::Wrong(SYNTAX),
    }
}

// A factor with the `!` in front of it, so many levels deep: its valuations, and the byte behind it.
#[cycle(factor_level)]
fn factor(text: &[u8], at: usize, a: u32, depth: u32) -> Result<LabelRead, BadToken>
    requires { depth ≤ most_levels }
    ensures { FactorAt text.now at a depth result }
{
    let mut flipped = false;
    let mut from = at;
    loop {
        let Found { first, next, kind } = token_at(text, from);
        match wanted_token(kind, a, depth < MOST_LEVELS) {
            Wanted::Not => {
                flipped = !flipped;
                from = next;
            }
            Wanted::Set(set) => {
                let set = turn(flipped, set);
                return Ok(LabelRead { set, next });
            }
            Wanted::Deeper => {
                let inner = level(text, next, a, depth + 1)?;
                let set = turn(flipped, inner.set);
                return Ok(LabelRead { set, ..inner });
            }
            Wanted::Wrong(number) => {
                return Err(BadToken {
                    number,
                    place: first,
                });
            }
        }
    }
}

// A level of brackets, so many levels deep: its valuations, and the byte behind the mark that shuts it.
#[cycle(factor_level)]
fn level(text: &[u8], at: usize, a: u32, depth: u32) -> Result<LabelRead, BadToken>
    requires { depth ≤ most_levels }
    ensures { LevelAt text.now at a depth result }
{
    let mut ors: u64 = 0;
    let mut ands: u64 = FULL;
    let mut from = at;
    loop {
        let read = factor(text, from, a, depth)?;
        let met = ands & read.set;
        let found = token_at(text, read.next);
        from = found.next;
        match behind_token(found.kind, depth == 0) {
            Behind::And => ands = met,
            Behind::Or => {
                ors |= met;
                ands = FULL;
            }
            Behind::Shut => {
                return Ok(LabelRead {
                    set: ors | met,
                    next: from,
                });
            }
            Behind::Wrong(number) => {
                return Err(BadToken {
                    number,
                    place: found.first,
                });
            }
        }
    }
}

// The label behind the `[` that ends at a place, with a propositions, or its refusal.
pub fn read_label(text: &[u8], at: usize, a: u32) -> Result<LabelRead, BadToken>
    ensures { LabelAt text.now at a result }
{
    level(text, at, a, 0)
}
