ghost use Rattle.std.specs.Prelude.{◌≡◌, ◌≤◌, length, IfOk, IfErr};
ghost use Rattle.std.specs.List.{AllByRecursion};
ghost use Rattle.ps_base.specs.Limits.{most_text_bytes};
ghost use Rattle.ps_base.specs.CodeUnit.{unit_view};
ghost use Rattle.ps_tree.specs.Phrase.{phrase_of};
ghost use Rattle.ps_program.specs.Node.{BodyNode};
ghost use Rattle.ps_program.specs.NodeView.{body_of};
ghost use Rattle.ps_causes.specs.ps_typing.Program.{bodies};
ghost use Rattle.ps_unit_weights.specs.ps_gen.Units.{unit_of, HasUnit};
ghost use Rattle.ps_causes.specs.Source.{IsProgram};
ghost use Rattle.ps_command.specs.inside.Refusal.{IsChecked, Refuses, RefusesTree};

use crate::source_fault::SourceFault;
use ps_base::code_unit::CodeUnit;
use ps_base::large_vectors::let_go;
use ps_causes::ps_parse::parse;
use ps_causes::ps_scan::scan;
use ps_check::check::check;
use ps_program::body::Program;
use ps_tree::rough::Rough;
use ps_unit_weights::ps_gen::generate::generate;
use std::alloc::Global;

/// The code of the program that a text is, or its first fault.
pub fn compile(alloc: Global, text: &[u8]) -> Result<CodeUnit, SourceFault>
    requires { length text.now ≤ most_text_bytes }
    ensures compiled { IfOk result (λ unit. (program : BodyNode) × IsProgram text.now program × (unit_view unit ≡ unit_of program) × AllByRecursion HasUnit (bodies program)) }
    ensures refused { IfErr result (λ fault. Refuses text.now fault) }
{
    let program = typed(alloc, text)?;
    match generate(alloc, &program) {
        Ok(unit) => Ok(unit),
        Err(_) => Err(SourceFault::Memory),
    }
}

// The typed program. The tokens are let go before the check, and the tree of the text while it is checked: so less memory is taken at once.
fn typed(alloc: Global, text: &[u8]) -> Result<Program, SourceFault>
    requires { length text.now ≤ most_text_bytes }
    ensures typed { IfOk result (λ program. IsProgram text.now (body_of program.body)) }
    ensures refused { IfErr result (λ fault. Refuses text.now fault) }
{
    let tokens = match scan(alloc, text) {
        Ok(tokens) => tokens,
        Err(fault) => return Err(SourceFault::Scan(fault)),
    };
    let rough = match parse(alloc, text, &tokens) {
        Ok(rough) => rough,
        Err(fault) => return Err(SourceFault::Parse(fault)),
    };
    let_go(tokens);
    checked(alloc, rough)
}

// The typed program of a tree.
fn checked(alloc: Global, rough: Rough) -> Result<Program, SourceFault>
    ensures checked { IfOk result (λ program. IsChecked (phrase_of rough) (body_of program.body)) }
    ensures refused { IfErr result (λ fault. RefusesTree (phrase_of rough) fault) }
{
    match check(alloc, rough) {
        Ok(program) => Ok(program),
        Err(fault) => Err(SourceFault::Check(fault)),
    }
}
