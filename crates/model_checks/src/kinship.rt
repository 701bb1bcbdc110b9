// Whether two components are close enough for a coupling.
ghost use Rattle.std.specs.Prelude.{◌≡◌};
ghost use Rattle.definition.specs.Pinned.Decoder.{related};
ghost use Rattle.model_records.specs.Values.{components_in};
ghost use Rattle.model_checks.specs.Known.{EndsThere};

use limits::MAX_COMPONENTS;

// Source is the target's parent, its sibling, or its child. Parents alone decide it: the root stands as its own parent, so that it and
// each of its children have the same parent too, and these are relatives anyway.
pub fn are_related(
    components: &[u8],
    parents: &[u8; MAX_COMPONENTS],
    source: usize,
    target: usize,
) -> bool
    requires { EndsThere (components_in components.now) source target parents.now }
    ensures { result ≡ related (components_in components.now) source target }
{
    let over_source = parents[source] as usize;
    let over_target = parents[target] as usize;
    if source == target {
        return false;
    }
    (over_target == source) | (over_source == target) | (over_source == over_target)
}
