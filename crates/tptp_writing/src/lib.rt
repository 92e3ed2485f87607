// An accepted policy as text in the TPTP typed form, written into a buffer that may be too short.
#![tactic(auto)]

mod tree;

ghost use Rattle.std.specs.Prelude.{◌≡◌};
ghost use Rattle.model.specs.Answer.{passed};
ghost use Rattle.model.specs.Tree.{Tree};
ghost use Rattle.model.specs.Reading.{read_policy};
ghost use Rattle.model.specs.Tptp.{policy_text};
ghost use Rattle.text.specs.Put.{Writes};

use policies::depth::Depth;
use text::writer::Writer;

// A policy that was read, written as text. What stands behind the text is left open.
pub fn write_tree(table: &[i32], policy: &[i32], out: &mut [u8]) -> Option<usize>
    requires { (tree : Tree) × (read_policy table.now policy.now ≡ passed tree) }
    ensures { (tree : Tree) →
        read_policy table.now policy.now ≡ passed tree →
        Writes (policy_text tree) out.old out.new result }
{
    let mut w = Writer::new(out);
    w.bytes(b"tff(a,axiom,");
    tree::node(policy, &mut w, true, Depth::ROOT, 0);
    w.bytes(b").");
    w.put
}
