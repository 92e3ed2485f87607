// Depths: where a node stands among levels and variables.
ghost use Rattle.std.specs.Prelude.{◌≤◌};
ghost use Rattle.model.specs.Words.{level_limit, scope_limit};

// The level of the node above, and how many variables are in scope: the number of the next free one.
#[derive(Clone, Copy, PartialEq, Eq)]
pub struct Depth {
    pub level: usize,
    pub scope: usize,
    pub ghost levels: { level ≤ level_limit },
    pub ghost scopes: { scope ≤ scope_limit },
}

impl Depth {
    // Above the root there is no level, and no variable is in scope.
    pub const ROOT: Depth = Depth { level: 0, scope: 0 };
}
