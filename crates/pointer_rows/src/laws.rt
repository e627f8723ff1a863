// Where an entry leads by its pointer is where the rules of a volume say. A law, without code.
ghost use Rattle.std.specs.Prelude.{◌≡◌, ℕ, List, Option};
ghost use Rattle.std.specs.Option.{option_map};
ghost use Rattle.hal_base.specs.declared.place.PartState.{PartState};
ghost use Rattle.hal_schema.specs.declared.schema.PartDef.{PartDef};
ghost use Rattle.eps_pointers.specs.declared.pointer.Eps.{Eps};
ghost use Rattle.eps_pointers.specs.declared.pointer.Ile.{Ile};
ghost use Rattle.eps_pointers.specs.Target.{generation_of, target_of};
ghost use Rattle.volume_rules.specs.View.{View};
ghost use Rattle.pointer_rows.specs.Rules.{ruled_generation, ruled_target, pointer_of, home_in, home_of};

/// The generation of a root and the target of a pointer are those of the rules, in a view whose indirect list has these
/// entries.
pub fn a_target_is_that_of_the_rules()
    ensures generation { (part : PartDef) (s : PartState) (key : List ℕ) → generation_of part s key ≡ ruled_generation part s key }
    ensures target { (view : View) (eps : Eps) (root : List ℕ) (code : ℕ) (listed : Option Ile) → view.listed eps.ilk code ≡ option_map home_of listed →
        ruled_target view (pointer_of eps root code) ≡ option_map (home_in (generation_of view.part view.state root)) (target_of (generation_of view.part view.state root) eps listed) }
{}
