ghost use Rattle.std.specs.Prelude.{◌≡◌, ◌≤◌};
ghost use Rattle.table_nodes.specs.avl_trees.Trees.{bits as digits};

/// How many binary digits a number has.
#[tactic(auto, using(crate::proofs::BitLaws::counting_first, crate::proofs::BitLaws::counting_more, crate::proofs::BitLaws::counting_done))]
pub fn bits(number: u64) -> u64
    ensures value { result ≡ digits number }
    ensures small { result ≤ 64 }
{
    let mut rest = number;
    let mut count = 0;
    while rest > 0 {
        rest /= 2;
        count += 1;
    }
    count
}
