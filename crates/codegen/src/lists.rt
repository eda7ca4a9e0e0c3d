// The ends of lists of expressions.
ghost use Rattle.std.specs.Prelude.{◌≡◌};
ghost use Rattle.lua_tree.specs.TreeLists.{expressions_of};
ghost use Rattle.scheme.specs.Lists as lists;
ghost use Rattle.scheme.specs.Scheme.{all_coded};

use crate::kinds::is_multiple;
use lua_tree::Exp;

/// Whether the last expression of a list can give several values.
pub fn ends_open(list: &[Exp]) -> bool
    ensures { result ≡ lists.ends_open (all_coded (expressions_of list.now)) }
{
    match list {
        [.., last] => is_multiple(last),
        [] => false,
    }
}
