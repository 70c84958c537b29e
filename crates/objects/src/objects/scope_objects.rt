//! Scopes: made, left, and their names read and written.
ghost use Rattle.std.specs.Prelude.{◌≡◌, ℕ, List, Option, IfOk, IfSome, OnOk, Some};
ghost use Rattle.joint_ops.specs.obj_layout.declared.reference.Reference.{Reference};
ghost use Rattle.joint_ops.specs.obj_layout.Storing.{SameNumbers};
ghost use Rattle.joint_ops.specs.swizzle.Heap.{IsHeld, Stands as AllStand, header_at};
ghost use Rattle.joint_ops.specs.swizzle.Reading.{LeavesOutside};
ghost use Rattle.joint_ops.specs.swizzle.Touch.{Keeps};
ghost use Rattle.joint_ops.specs.heap_places.Places.{IsNear};
ghost use Rattle.joint_ops.specs.ps_heap.Objects as meaning;
ghost use Rattle.joint_ops.specs.ps_heap.Scopes.{new_scope};
ghost use Rattle.joint_ops.specs.ps_heap.Values as meant;
ghost use Rattle.joint_ops.specs.World.{DenotesIn, DenotesScopeIn, IsForIn, IsWorld, FailsAsReading};
ghost use Rattle.joint_ops.specs.Made.{FailsAsMaking};
ghost use Rattle.joint_procedures.specs.Scopes.{AnswersOut, AnswersParent, IsInt, MakesScope, PutsKept, ReadsKept, WritesKept};

use super::Objects;
use joint_ops::Value;
use joint_ops::obj_layout::kind::Kind;
use joint_ops::obj_layout::vault::Vault;
use joint_ops::swizzle::fault::SwizzleFault;
use joint_procedures::scope;

impl Objects {
    /// Makes a scope of a text inside another one, or inside none. AreaFull exactly where there is no room for its words; then the area stays.
    #[inline]
    pub fn make_scope<V: Vault>(
        &mut self,
        vault: &V,
        text: u32,
        parent: Option<u32>,
    ) -> Result<u32, SwizzleFault>
        requires text { IsHeld self.old text }
        requires kind { (header_at self.old text).kind ≡ Kind.Text }
        requires parent { IfSome parent (IsHeld self.old) }
        ensures made { (of : meaning.Heap) (names : List Reference) (bytes : List ℕ) (round : Option ℕ) → IsWorld self.old (V.outside vault.now) of names
            → DenotesIn self.old (V.outside vault.now) names (Some text) (meant.Text bytes) → DenotesScopeIn self.old (V.outside vault.now) names parent round
            → MakesScope self.old self.new (V.outside vault.now) of names (new_scope bytes round) result }
        ensures fails { FailsAsMaking self.old self.new result }
        ensures held { IfOk result (IsHeld self.new) }
        ensures keeps { Keeps self.old self.new }
    {
        scope::make_scope(&mut self.sw, vault, text, parent)
    }

    /// The scope round a scope; None for none. What isn't in the area is fetched, here and below.
    #[inline]
    pub fn parent_of<V: Vault>(
        &mut self,
        vault: &mut V,
        scope: u32,
    ) -> Result<Option<u32>, SwizzleFault>
        requires alive { V.alive vault.old }
        requires held { IsHeld self.old scope }
        ensures got { (of : meaning.Heap) (names : List Reference) (within : Option ℕ) → IsWorld self.old (V.outside vault.old) of names
            → DenotesScopeIn self.old (V.outside vault.old) names (Some scope) within → AnswersParent self.old self.new (V.outside vault.old) (V.outside vault.new) of names within result }
        ensures held { IfOk result (λ to. IfSome to (IsHeld self.new)) }
        ensures keeps { OnOk result (Keeps self.old self.new) }
        ensures fails { FailsAsReading (V.outside vault.old) (V.outside vault.new) result }
        ensures leaves { LeavesOutside (V.outside vault.old) (V.outside vault.new) }
        ensures numbers { SameNumbers V.used_words V.directory_at V.most_words V.access vault.old vault.new }
        ensures alive { OnOk result (V.alive vault.new) }
    {
        let got = scope::parent_of(&mut self.sw, vault, scope);
        match got {
            Ok(given) => Ok(given),
            Err(fault) => {
                self.known.clear();
                Err(fault)
            }
        }
    }

    /// The scope so many levels out from a scope, which is 0 levels out from itself. Damaged exactly where there is none.
    #[inline(always)]
    pub fn scope_out<V: Vault>(
        &mut self,
        vault: &mut V,
        scope: u32,
        up: u32,
    ) -> Result<u32, SwizzleFault>
        requires alive { V.alive vault.old }
        requires held { IsHeld self.old scope }
        ensures out { (of : meaning.Heap) (names : List Reference) (within : Option ℕ) → IsWorld self.old (V.outside vault.old) of names
            → DenotesScopeIn self.old (V.outside vault.old) names (Some scope) within → AnswersOut self.old self.new (V.outside vault.old) (V.outside vault.new) of names within up result }
        ensures held { IfOk result (IsHeld self.new) }
        ensures keeps { OnOk result (Keeps self.old self.new) }
        ensures fails { FailsAsReading (V.outside vault.old) (V.outside vault.new) result }
        ensures leaves { LeavesOutside (V.outside vault.old) (V.outside vault.new) }
        ensures numbers { SameNumbers V.used_words V.directory_at V.most_words V.access vault.old vault.new }
        ensures alive { OnOk result (V.alive vault.new) }
    {
        let got = scope::scope_out(&mut self.sw, vault, scope, up);
        match got {
            Ok(given) => Ok(given),
            Err(fault) => {
                self.known.clear();
                Err(fault)
            }
        }
    }

    /// What is kept under the name of this number, from 0, of the scope so many levels out. Damaged exactly where there is no such scope, or its text
    /// has no such name.
    #[inline(always)]
    pub fn get_kept<V: Vault>(
        &mut self,
        vault: &mut V,
        scope: u32,
        up: u32,
        name: u32,
    ) -> Result<Value, SwizzleFault>
        requires alive { V.alive vault.old }
        requires held { IsHeld self.old scope }
        ensures got { (of : meaning.Heap) (names : List Reference) (within : Option ℕ) → IsWorld self.old (V.outside vault.old) of names
            → DenotesScopeIn self.old (V.outside vault.old) names (Some scope) within → ReadsKept self.old self.new (V.outside vault.old) (V.outside vault.new) of names within up name result }
        ensures near { IfOk result (IsNear self.new) }
        ensures keeps { OnOk result (Keeps self.old self.new) }
        ensures fails { FailsAsReading (V.outside vault.old) (V.outside vault.new) result }
        ensures leaves { LeavesOutside (V.outside vault.old) (V.outside vault.new) }
        ensures numbers { SameNumbers V.used_words V.directory_at V.most_words V.access vault.old vault.new }
        ensures alive { OnOk result (V.alive vault.new) }
    {
        let got = scope::get_kept(
            &mut self.sw,
            vault,
            &mut self.known.layouts,
            scope,
            up,
            name,
        );
        match got {
            Ok(given) => Ok(given),
            Err(fault) => {
                self.known.clear();
                Err(fault)
            }
        }
    }

    /// Writes what is kept under the name of this number of the scope so many levels out, and notes that scope as assigned. Damaged exactly where there
    /// is no such scope, its text has no such name, or the value belongs into the other row; an int may be put where a bool is kept, and a bool where an
    /// int is.
    #[inline]
    pub fn set_kept<V: Vault>(
        &mut self,
        vault: &mut V,
        scope: u32,
        up: u32,
        name: u32,
        to: Value,
    ) -> Result<(), SwizzleFault>
        requires alive { V.alive vault.old }
        requires held { IsHeld self.old scope }
        requires near { IsNear self.old to }
        ensures set { (of : meaning.Heap) (names : List Reference) (within : Option ℕ) (v : meant.Value) → IsWorld self.old (V.outside vault.old) of names
            → DenotesScopeIn self.old (V.outside vault.old) names (Some scope) within → IsInt to → IsForIn self.old (V.outside vault.old) names to v
            → WritesKept self.old self.new (V.outside vault.old) (V.outside vault.new) of names within up name to v result }
        ensures does { OnOk result (PutsKept self.old self.new name to) }
        ensures fails { FailsAsReading (V.outside vault.old) (V.outside vault.new) result }
        ensures leaves { LeavesOutside (V.outside vault.old) (V.outside vault.new) }
        ensures numbers { SameNumbers V.used_words V.directory_at V.most_words V.access vault.old vault.new }
        ensures alive { OnOk result (V.alive vault.new) }
        ensures stands { OnOk result (AllStand self.old self.new) }
        ensures size { OnOk result (self.new.size ≡ self.old.size) }
    {
        let got = scope::set_kept(
            &mut self.sw,
            vault,
            &mut self.known.layouts,
            scope,
            up,
            name,
            to,
        );
        match got {
            Ok(given) => Ok(given),
            Err(fault) => {
                self.known.clear();
                Err(fault)
            }
        }
    }
}
