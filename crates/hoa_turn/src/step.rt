// One token of a formula: the reader's turn. Relies on the crate `hoa_standard`.
ghost use Rattle.std.specs.Prelude.{◌≡◌, ◌<◌, ◌≤◌};
ghost use Rattle.hoa_standard.specs.Formulas.{astray};
ghost use Rattle.hoa_standard.specs.inner.Sides.{AheadWithin, bracket_room};
ghost use Rattle.hoa_turn.specs.inner.Turns.{Within, opens_pair_ahead, go_ahead, go_named, go_past, on_operand, on_named, on_bracket, on_number, on_after, turn_at};

use hoa_standard::{
    Ahead, Past, Piece, begun_fin, begun_inf, begun_truth, closed, joined_and, joined_or,
    lost_ahead, lost_past, opened,
};

// The most pairs of a Rabin formula.
pub const MOST_PAIRS: u32 = 8;

// The refusals: not of HOA v1, not of the subset, a limit.
const SYNTAX: u32 = 40;

const SUBSET: u32 = 41;

const LIMIT: u32 = 42;

// Where the reader stands: an operand is expected; behind an atom's word, its bracket, its number; behind an operand.
#[derive(Clone, Copy)]
pub enum Stage {
    Operand(Ahead),
    Named(Past),
    Bracket(Past),
    Number(Past),
    After(Past),
}

// The reader's state: open brackets, atoms that have begun, and where it stands.
#[derive(Clone, Copy)]
pub struct Formula {
    pub depth: usize,
    pub atoms: u32,
    pub stage: Stage,
}

// What the reader does at a token: go on, stop because the formula is over, or refuse.
#[derive(Clone, Copy)]
pub enum Turn {
    Go(Formula),
    Over,
    Wrong(u32),
}

// The refusal of a token that section 2 does not admit.
fn refusal(p: Piece) -> u32
    ensures { result ≡ astray p }
{
    match p {
        Piece::Abort => SUBSET,
        _ => SYNTAX,
    }
}

// Whether a pair's Fin may come next.
pub(crate) fn opens_pair(a: Ahead) -> bool
    ensures { result ≡ opens_pair_ahead a }
{
    matches!(
        a,
        Ahead::Start(_) | Ahead::FirstOr { .. } | Ahead::RabinFin { .. }
    )
}

// An operand is expected next, if some kind admits it and no ninth pair would begin.
fn go_ahead(f: Formula, a: Ahead, pairs: u32) -> Turn
    ensures { result ≡ go_ahead f.depth f.atoms a pairs }
{
    if lost_ahead(a) {
        return Turn::Wrong(SUBSET);
    }
    if MOST_PAIRS <= pairs && opens_pair(a) {
        return Turn::Wrong(LIMIT);
    }
    Turn::Go(Formula {
        stage: Stage::Operand(a),
        ..f
    })
}

// An atom has begun, if it is no more than the c-th and some kind admits it.
fn go_named(c: u32, f: Formula, p: Past) -> Turn
    ensures { result ≡ go_named c f.depth f.atoms p }
{
    if c <= f.atoms || lost_past(p) {
        return Turn::Wrong(SUBSET);
    }
    Turn::Go(Formula {
        atoms: f.atoms + 1,
        stage: Stage::Named(p),
        ..f
    })
}

// Behind an operand, if some kind admits it.
fn go_past(f: Formula, p: Past) -> Turn
    ensures { result ≡ go_past f.depth f.atoms p }
{
    if lost_past(p) {
        return Turn::Wrong(SUBSET);
    }
    Turn::Go(Formula {
        stage: Stage::After(p),
        ..f
    })
}

// Where an operand is expected.
fn on_operand(c: u32, f: Formula, a: Ahead, p: Piece, pairs: u32, most: usize) -> Turn
    requires { (f.depth ≤ most) × AheadWithin most a × (p ≡ Piece.Left → most < bracket_room) }
    ensures { result ≡ on_operand c f.depth f.atoms a p pairs }
{
    match p {
        Piece::Left => {
            let inside = Formula {
                depth: f.depth + 1,
                ..f
            };
            go_ahead(inside, opened(a, most), pairs)
        }
        Piece::Inf => go_named(c, f, begun_inf(a, c)),
        Piece::Fin => go_named(c, f, begun_fin(a)),
        Piece::Truth(value) => go_past(f, begun_truth(a, c, value)),
        Piece::Name => Turn::Wrong(SUBSET),
        _ => Turn::Wrong(refusal(p)),
    }
}

// Behind an atom's word.
fn on_named(f: Formula, b: Past, p: Piece) -> Turn
    ensures { result ≡ on_named f.depth f.atoms b p }
{
    match p {
        Piece::Left => Turn::Go(Formula {
            stage: Stage::Bracket(b),
            ..f
        }),
        _ => Turn::Wrong(refusal(p)),
    }
}

// Behind an atom's bracket: the i-th atom bears mark i.
fn on_bracket(f: Formula, b: Past, p: Piece) -> Turn
    ensures { result ≡ on_bracket f.depth f.atoms b p }
{
    match p {
        Piece::Number(k) if k < f.atoms && k + 1 == f.atoms => Turn::Go(Formula {
            stage: Stage::Number(b),
            ..f
        }),
        Piece::Number(_) | Piece::Not => Turn::Wrong(SUBSET),
        _ => Turn::Wrong(refusal(p)),
    }
}

// Behind an atom's number.
fn on_number(f: Formula, b: Past, p: Piece) -> Turn
    ensures { result ≡ on_number f.depth f.atoms b p }
{
    match p {
        Piece::Right => Turn::Go(Formula {
            stage: Stage::After(b),
            ..f
        }),
        _ => Turn::Wrong(refusal(p)),
    }
}

// Behind an operand: with no open bracket, what does not continue the formula is the token behind it.
fn on_after(c: u32, f: Formula, b: Past, p: Piece, pairs: u32) -> Turn
    ensures { result ≡ on_after c f.depth f.atoms b p pairs }
{
    match p {
        Piece::Right if 0 < f.depth => {
            let outside = Formula {
                depth: f.depth - 1,
                ..f
            };
            go_past(outside, closed(b))
        }
        Piece::And | Piece::Or if c <= f.atoms => Turn::Wrong(SUBSET),
        Piece::And => go_ahead(f, joined_and(b), pairs),
        Piece::Or => go_ahead(f, joined_or(b), pairs),
        _ if f.depth == 0 => Turn::Over,
        _ => Turn::Wrong(refusal(p)),
    }
}

// The reader's turn at one token, where so many pairs have begun and no count of brackets is above `most`.
pub fn step(c: u32, f: Formula, p: Piece, pairs: u32, most: usize) -> Turn
    requires { Within most f × (p ≡ Piece.Left → most < bracket_room) }
    ensures { result ≡ turn_at c f p pairs }
{
    match f.stage {
        Stage::Operand(a) => on_operand(c, f, a, p, pairs, most),
        Stage::Named(b) => on_named(f, b, p),
        Stage::Bracket(b) => on_bracket(f, b, p),
        Stage::Number(b) => on_number(f, b, p),
        Stage::After(b) => on_after(c, f, b, p, pairs),
    }
}
