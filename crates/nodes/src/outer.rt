// The outer environment of a node: the variables in scope, bound to their numbers.
ghost use Rattle.std.specs.Prelude.{◌≡◌, List, ◌++◌, ◌+◌, ◌*◌, ◌≤◌, length, take, drop, ℤ};
ghost use Rattle.nodes.specs.Ground as G;

use crate::ground::instance;
use environments::environment::Environment;

// The environment that binds the variables in scope and no other, and how many they are. It goes by reference: a walk of 64 levels
// would copy it at each.
#[derive(Clone, Copy)]
pub struct Outer {
    pub environment: Environment,
    pub scope: usize,
    pub ghost scopes: { scope ≤ 16 },
    pub ghost bound: { G.Outer environment scope (take scope environment.numbers) },
}

impl Outer {
    // With v variables more, bound to the numbers of an instance in a place of scratch.
    pub fn instance(&self, scratch: &[i32], place: usize, v: usize) -> Outer
        requires { (self.now.scope + v ≤ 16) × (17 * place + 17 ≤ length scratch.now) }
        ensures scope { result.scope ≡ self.now.scope + v }
        ensures numbers { (ρ : List ℤ) →
            G.Outer self.now.environment self.now.scope ρ →
            G.Outer result.environment (self.now.scope + v) (ρ ++ take v (drop (17 * place + self.now.scope) scratch.now)) }
    {
        Outer {
            environment: instance(self.environment, scratch, place, self.scope, v),
            scope: self.scope + v,
        }
    }
}
