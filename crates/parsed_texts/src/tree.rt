ghost use Rattle.std.specs.Prelude.{IfOk, IfErr};
ghost use Rattle.ps_tree.specs.Phrase.{phrase_of};
ghost use Rattle.parsed_texts.specs.Texts.{HasTree, LacksTree};

use crate::fault::TextFault;
use ps_base::LONGEST_TEXT;
use ps_base::large_vectors::let_go;
use ps_parse::parse;
use ps_parse::ps_scan::scan;
use ps_tree::rough::Rough;
use std::alloc::Global;

/// The tree of a text, or why it has none. The tokens are let go.
pub fn tree_of(alloc: Global, text: &[u8]) -> Result<Rough, TextFault>
    ensures tree { IfOk result (λ rough. HasTree text.now (phrase_of rough)) }
    ensures fault { IfErr result (λ fault. LacksTree text.now fault) }
{
    if text.len() > LONGEST_TEXT {
        return Err(TextFault::TooLong);
    }
    let tokens = match scan(alloc, text) {
        Ok(tokens) => tokens,
        Err(fault) => return Err(TextFault::Scan(fault)),
    };
    let tree = parse(alloc, text, &tokens);
    let_go(tokens);
    match tree {
        Ok(rough) => Ok(rough),
        Err(fault) => Err(TextFault::Parse(fault)),
    }
}
