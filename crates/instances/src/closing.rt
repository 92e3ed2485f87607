// Whether a restriction is closed: every atom of it has a complete predicate.
ghost use Rattle.std.specs.Prelude.{◌≡◌, ◌<◌, length};
ghost use Rattle.policies.specs.Node.{as_tag};
ghost use Rattle.environments.specs.Standing.{HereRestriction};
ghost use Rattle.instances.specs.Closing.{complete_at, TellsClosed};

use policies::node;
use policies::node::Tag;
use tables::table;
use trees::walk::Walk;

// The predicate of the node at an index is complete, if the node is an atom.
fn complete(table: &[i32], words: &[i32], tag: Tag, at: usize) -> bool
    requires { at < length words.now }
    ensures { result ≡ complete_at table.now words.now (as_tag tag) at }
{
    match tag {
        Tag::Atom(_) => table::complete(table, words::value(words, at + 1)),
        _ => true,
    }
}

// Every atom of the restriction at an index has a complete predicate. The walk ends at the first that has not.
pub fn closed(table: &[i32], words: &[i32], at: usize) -> bool
    requires { HereRestriction table.now words.now at }
    ensures { TellsClosed table.now words.now at result }
{
    let mut walk = Walk::new(at);
    // By hand: the step is the size of the node that stands there.
    while 0 < walk.left {
        let tag = node::tag_at(words, walk.at);
        if !complete(table, words, tag, walk.at) {
            return false;
        }
        walk = walk.past(words, tag);
    }
    true
}
