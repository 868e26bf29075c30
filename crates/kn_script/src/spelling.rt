ghost use Rattle.std.specs.Prelude.{◌≡◌, List, Ok};
ghost use Rattle.kn_world.specs.declared.event.WorldEvent.{WorldEvent};
ghost use Rattle.kn_script.specs.Script.{script_of, none_made};
ghost use Rattle.kn_script.specs.Spelling.{spelled, CanBeSpelled};

/// Events that keep to the limits and name what was made before them are spelled by a script, which is read as
/// just these events: so no two lists of them have one spelling, and each of them can be written.
pub fn spelled_scripts_are_read()
    ensures { (events : List WorldEvent) → CanBeSpelled none_made events → script_of (spelled events) ≡ Ok events }
{}
