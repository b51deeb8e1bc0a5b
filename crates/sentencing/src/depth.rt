// What a judgement comes to, and how deep the erasing went. What the functions promise is in specs/inner/Judged.antt.
ghost use Rattle.std.specs.Prelude.{◌≡◌, ◌<◌, max};
ghost use Rattle.marks.specs.Mark.{width};
ghost use Rattle.sentencing.specs.inner.Judged.{depth_of, lowered};

use dividing::parts::Part;

// What a judgement comes to: a part that holds an accepted lasso, or none, with the number of levels that the erasing went down.
pub type Judged = Result<Part, u32>;

// The larger of two numbers.
pub fn larger(a: u32, b: u32) -> u32
    ensures { result ≡ max a b }
{
    a.max(b)
}

// How deep the erasing went where nothing was found.
pub fn depth_of(said: Judged) -> u32
    ensures { result ≡ depth_of said }
{
    said.err().unwrap_or(0)
}

// What was judged of the parts of a divided part, said of the part itself: they are a level lower.
pub fn lower(said: Judged) -> Judged
    requires { depth_of said < width }
    ensures { result ≡ lowered said }
{
    said.map_err(|depth| depth + 1)
}
