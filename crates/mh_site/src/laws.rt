//! Laws of the definitions.

ghost use Rattle.std.specs.Prelude.{◌≡◌, ◌<◌, ℕ, List, length, reverse};
ghost use Rattle.mh_site.specs.Defined.{DefinitionData};
ghost use Rattle.mh_site.specs.Worlds.{state_at, replay, opened};
ghost use Rattle.mh_site.specs.LookBack.{site_after, valid_points};
ghost use Rattle.mh_site.specs.declared.control.Control.{Control};

/// Proves that the tables of a world, after any controls, agree with looking back through these
/// controls. A site's base tree is that of its last retargeting, and its version counts its
/// retargetings. Its linked tree and the links that it holds are those of the last installation
/// that changes the site, unless a retargeting came after it. A point is valid if and only if no
/// invalidation names it. The controls are listed newest first, and replayed oldest first.
pub fn worlds_look_back()
    ensures sites { (d : DefinitionData) → (newest : List Control) → (s : ℕ) → s < length d.sites →
        state_at (replay (opened d) (reverse newest)) s ≡ site_after d newest s }
    ensures count { (d : DefinitionData) → (newest : List Control)
        → length (replay (opened d) (reverse newest)).sites ≡ length d.sites }
    ensures points { (d : DefinitionData) → (newest : List Control)
        → (replay (opened d) (reverse newest)).valid ≡ valid_points d newest }
    ensures front { (d : DefinitionData) → (newest : List Control)
        → (replay (opened d) (reverse newest)).front ≡ length newest }
{}
