ghost use Rattle.std.specs.Prelude.{◌≡◌, ℕ, ◌↔◌, IsTrue};
ghost use Rattle.scev_tree.specs.Polynomial.{Polynomial};
ghost use Rattle.shared_table.specs.declared.sizes.SizedView.{SizedView};
ghost use Rattle.shared_table.specs.Known.{IsSeen};
ghost use Rattle.uniquing.specs.Nodes.{IsNodeOf};

use shared_table::Node;

/// Whether two nodes that one pass knows stand for the same expression: the same polynomial with
/// the same width.
pub fn same_node(a: Node, b: Node) -> bool
    ensures { (z : SizedView) (w x : ℕ) (p q : Polynomial)
        → IsSeen z → IsNodeOf z.view a w p → IsNodeOf z.view b x q
        → IsTrue result ↔ ((w ≡ x) × (p ≡ q)) }
{
    a.0 == b.0
}
