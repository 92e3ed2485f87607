// Which environments a leaf of a restriction keeps.
ghost use Rattle.std.specs.Prelude.{◌≡◌};
ghost use Rattle.model.specs.Words.{word};
ghost use Rattle.model.specs.Tag.{tag_of};
ghost use Rattle.policies.specs.Node.{as_tag};
ghost use Rattle.policies.specs.Standing.{HereTerms};
ghost use Rattle.environments.specs.Standing.{HereRestriction};
ghost use Rattle.listing.specs.Keeping.{TellsFalse, TellsKept};

use environments::environment::Environment;
use environments::terms;
use logs::accepted::KnownAtoms;
use matching::lookup;
use policies::node::Tag;

// Whether the ground atom at an index is known to be false.
fn is_false(log: &KnownAtoms<'_>, words: &[i32], environment: Environment, at: usize) -> bool
    requires { HereTerms words.now at }
    ensures { TellsFalse log.now.table.now words.now log.now.rows.now environment at result }
{
    lookup::value_at(log, words, environment, at) == Some(false)
}

// Whether the leaf of a restriction at an index, whose tag is given, keeps an environment.
pub fn keeps(
    log: &KnownAtoms<'_>,
    words: &[i32],
    environment: Environment,
    tag: Tag,
    at: usize,
) -> bool
    requires { (as_tag tag ≡ tag_of (word words.now at))
        × HereRestriction log.now.table.now words.now at }
    ensures { TellsKept log.now.table.now words.now log.now.rows.now environment at result }
{
    match tag {
        Tag::Plain(b) => b,
        Tag::Compare(b) => b == terms::compare(environment, words, at),
        Tag::Atom(_) => is_false(log, words, environment, at),
        _ => false,
    }
}
