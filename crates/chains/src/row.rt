// A row of a log.
ghost use Rattle.std.specs.Prelude.{◌+◌, ◌*◌, ◌≤◌, length};

// The row of a number, which is there.
#[derive(Clone, Copy)]
pub struct Row<'a> {
    pub log: &'a [i32],
    pub number: usize,
    pub ghost there: { 8 * number + 8 ≤ length log.now },
}
