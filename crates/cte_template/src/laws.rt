//! What holds of the query's tree.

ghost use Rattle.cte_template.specs.Laws.{IsTemplates};

/// Without its names the tree is the template's.
pub fn the_tree_is_the_templates()
    ensures { IsTemplates }
{}
