ghost use Rattle.std.specs.Prelude.{◌≢◌, ◌≤◌, length, IfOk, IfErr};
ghost use Rattle.ps_base.specs.Limits.{most_nested, most_text_bytes};
ghost use Rattle.ps_reader.specs.ps_scan.Tokens.{HasTokens};
ghost use Rattle.ps_tree.specs.Phrase.{phrase_of};
ghost use Rattle.ps_reader.specs.Grammar.{Go, Program};
ghost use Rattle.ps_reader.specs.inside.Parsing.{AreSound, ReadsClause};
ghost use Rattle.ps_parse.specs.Program.{ReadsAs, IsParseFault};

use ps_base::large_vectors::let_go;
use ps_base::line::Line;
use ps_clauses::items::items;
use ps_reader::ps_scan::{Token, tokens_are_slices};
use ps_reader::reader::Reader;
use ps_tree::fault::ParseFault;
use ps_tree::ps_symbols::kind::Kind;
use ps_tree::ps_symbols::symbol::symbols;
use ps_tree::rough::Rough;
use std::alloc::Global;

/// The most clauses and types that may stand inside one another.
const DEEPEST: u32 = 100;

/// The tree of a text of at most 1,048,576 bytes from the tokens that `scan` answers for it, or the
/// first fault in it (`docs/language.md`).
pub fn parse(alloc: Global, text: &[u8], tokens: &[Token]) -> Result<Rough, ParseFault>
    requires size { length text.now ≤ most_text_bytes }
    requires tokens_of_text { HasTokens text.now tokens.now }
    ensures tree { IfOk result (λ rough. ReadsAs text.now tokens.now (phrase_of rough)) }
    ensures fault { IfErr result (λ fault. fault ≢ ParseFault.Memory → IsParseFault text.now tokens.now fault) }
{
    tokens_are_slices(text, tokens);
    let symbols = symbols(alloc, tokens)?;
    let reader = Reader {
        alloc,
        text,
        symbols: &symbols,
        tokens: tokens.len() as u32,
    };
    let tree = program(&reader, &mut 0);
    let_go(symbols);
    tree
}

#[tactic(auto, using(ps_reader::proofs::Steps::steps))]
fn program(reader: &Reader, at: &mut usize) -> Result<Rough, ParseFault>
    requires sound { AreSound reader.now }
    ensures { ReadsClause reader.now most_nested (Go Program) at.old result at.new }
{
    let all = items(reader, at, DEEPEST, Line(1))?;
    match reader.kind_at(*at) {
        Kind::Question => {
            reader.take(at, Kind::Question)?;
            match reader.kind_at(*at) {
                Kind::EndOfText => Ok(all),
                _ => Err(reader.unexpected(*at)),
            }
        }
        Kind::EndOfText => Ok(all),
        _ => Err(reader.unexpected(*at)),
    }
}
