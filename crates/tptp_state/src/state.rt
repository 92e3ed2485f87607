// What is known behind a part of a policy that was read. It is handed on as a reference, so that a call takes no copy of it.
ghost use Rattle.std.specs.Prelude.{◌≡◌, true, Bool, List, ◌+◌, ◌≤◌, ◌<◌, ◌^◌, length, take, set};
ghost use Rattle.std.proofs.lemmas.List.Edits.{sets};
ghost use Rattle.model.specs.Words as W;
ghost use Rattle.model.specs.Answer as M;
ghost use Rattle.model.specs.Tag.{tag_of};
ghost use Rattle.model.specs.Tree.{Tree};
ghost use Rattle.model.specs.Level as L;
ghost use Rattle.model.specs.Reading.{questions, is_formula};
ghost use Rattle.model.specs.Tptp.{good_tree};
ghost use Rattle.tables.specs.Checked.{outcome};
ghost use Rattle.policies.specs.Node.{as_role};
ghost use Rattle.policies.specs.Standing.{Here};
ghost use Rattle.tptp_tokens.specs.Laying.{most_words};
ghost use Rattle.tptp_leaves.specs.Leaves.{LeafStands};
ghost use Rattle.tptp_state.specs.Told as T;

use model::{Refusal, Refused};
use modes::marks::Marks;
use modes::mode;
use policies::depth::Depth;
use policies::node;
use policies::node::Role;
use policies::spot::Spot;
use tptp_tokens::laying::more_words;

// What is known behind a part that was read: how many words there are so far, what comes of questions 4 to 6 and of question 7, and the
// variables that are bound, by their marks.
#[derive(Clone, Copy, PartialEq, Eq)]
pub struct State {
    pub words: usize,
    pub asked: Result<(), Refused>,
    pub moded: Result<(), Refused>,
    pub set: Marks,
}

// A question behind others: the first refusal stands.
pub fn then_ask(
    before: Result<(), Refused>,
    passes: bool,
    q: Refusal,
    place: usize,
) -> Result<(), Refused>
    ensures { outcome result ≡ M.◌>>=◌ (outcome before) (λ _. M.ask passes q place) }
{
    before?;
    if passes {
        return Ok(());
    }
    Err(Refused(q, place))
}

// The same refusal at another place.
fn at_place(asked: Result<(), Refused>, place: usize) -> Result<(), Refused>
    ensures { outcome result ≡ T.moved place (outcome asked) }
{
    asked.map_err(|Refused(q, _)| Refused(q, place))
}

// Questions 4 to 6 of a node with none below it, whose words stand apart, behind others.
// Level and scope are numbers, here and below: a text is read on behind a refusal, beyond the limits of a `Depth`.
fn ask_leaf(
    table: &[i32],
    own: &[i32],
    role: Role,
    above: usize,
    scope: usize,
    before: Result<(), Refused>,
    place: usize,
) -> Result<(), Refused>
    requires { (before ≡ T.Passed → above ≤ W.level_limit) × (before ≡ T.Passed → scope ≤ W.scope_limit) }
    ensures { outcome result
        ≡ M.◌>>=◌ (outcome before) (λ _. T.moved place (questions table.now own.now (tag_of (W.word own.now 0)) (as_role role) above scope 0)) }
{
    before?;
    let tag = node::tag_at(own, 0);
    let depth = Depth {
        level: above,
        scope,
    };
    let spot = Spot { words: own, at: 0 };
    let asked = node::questions(table, spot, tag, role, depth);
    at_place(asked, place)
}

// A word of one slice becomes the word at an index of another, if it has one.
fn lay_word(out: &mut [i32], w: usize, own: &[i32], i: usize)
    requires { i < length own.now }
    ensures { out.new ≡ set out.old w (W.word own.now i) }
{
    if w < out.len() {
        out[w] = own[i];
    }
}

// The first words of one slice are laid in another, from an index on, as far as it reaches.
// By hand: for a copy of slices, both would have to be cut to what the buffer has left.
fn lay_own(out: &mut [i32], w: usize, own: &[i32], n: usize)
    requires { (n ≤ length own.now) × (w + n < 2 ^ 64) }
    ensures { out.new ≡ sets out.old w (take n own.now) }
{
    for i in 0..n {
        lay_word(out, w + i, own, i);
    }
}

// The variables in scope, if they are at most sixteen.
pub fn outer_variables(scope: usize) -> Marks
    ensures { T.Outer scope result }
{
    if node::SCOPE_LIMIT < scope {
        return Marks::NONE;
    }
    Marks::outer(scope)
}

impl State {
    // Question 7 of a node of a restriction with none below it, whose words stand apart, behind others.
    fn bind_leaf(&mut self, table: &[i32], own: &[i32], above: usize, scope: usize)
        requires { T.Ready above scope self.old
            × (self.old.asked ≡ T.Passed → Here table.now own.now L.Role.restriction above scope 0) }
        ensures { T.LeafBound table.now own.now above scope self.old self.new }
    {
        if let Err(_) = self.asked {
            return;
        }
        if let Err(_) = self.moded {
            return;
        }
        let depth = Depth {
            level: above,
            scope,
        };
        let bound = mode::bind(table, own, self.set, depth, 0);
        match bound {
            Ok(behind) => self.set = behind.set,
            Err(Refused(q, _)) => self.moded = Err(Refused(q, self.words)),
        }
    }

    // A node with none below it, whose words stand apart: it is asked, bound in a restriction, and laid.
    pub fn settle_leaf(
        &mut self,
        table: &[i32],
        own: &[i32],
        role: Role,
        above: usize,
        scope: usize,
        out: &mut [i32],
    )
        requires { T.Ready above scope self.old
            × ((t : Tree) × LeafStands own.now t × (good_tree t (is_formula (as_role role)) ≡ true))
            × (length own.now ≡ 16) }
        ensures { T.LeafTold table.now own.now (as_role role) above scope self.old self.new out.old out.new }
    {
        let w = self.words;
        let tag = node::tag_at(own, 0);
        let n = node::size(own, tag, 0);
        lay_own(out, w, own, n);
        self.asked = ask_leaf(table, own, role, above, scope, self.asked, w);
        let words = more_words(w, n);
        if node::is_formula(role) {
            self.words = words;
            return;
        }
        self.bind_leaf(table, own, above, scope);
        self.words = words;
    }

    // Behind the first words of a node, which are so many: whether its level and its variables fit is asked there.
    pub fn enter(&mut self, n: usize, level: bool, range: bool, set: Marks)
        requires { (self.old.words ≤ most_words) × (n ≤ 3) }
        ensures { T.Entered n level range set self.old self.new }
    {
        let w = self.words;
        let leveled = then_ask(self.asked, level, Refusal::Level, w);
        self.asked = then_ask(leveled, range, Refusal::Variable, w);
        self.words = more_words(w, n);
        self.set = set;
    }

    // The variable of a "some" was bound by its child, and is dropped.
    pub fn drop_variable(&mut self, scope: usize, w: usize)
        ensures { T.Dropped scope w self.old self.new }
    {
        if scope >= node::SCOPE_LIMIT {
            return;
        }
        self.moded = then_ask(self.moded, self.set.has(scope), Refusal::Mode, w);
        self.set = self.set.without(scope);
    }

    // The variables of a quantifier are bound by its restriction.
    pub fn introduce(&mut self, scope: usize, v: usize, w: usize)
        requires { scope + v < 2 ^ 32 }
        ensures { T.Introduced scope v w self.old self.new }
    {
        if node::SCOPE_LIMIT < scope + v {
            return;
        }
        let bound = self.set.introduced(scope, v);
        self.moded = then_ask(self.moded, bound, Refusal::Mode, w);
    }

    // What an operand is handed: the marks behind the one before, or those of the start.
    // By an if, here and in `join`, since the text says which: closures would be chosen by an if too.
    pub fn hand(&mut self, every: bool, start: Marks)
        ensures { T.Handed every start self.old self.new }
    {
        if !every {
            self.set = start;
        }
    }

    // The marks behind an operand: its own, or those of the variables bound by all so far.
    pub fn join(&mut self, every: bool, before: Marks)
        ensures { T.Joined every before self.old self.new }
    {
        if !every {
            self.set = before.both(self.set);
        }
    }
}
