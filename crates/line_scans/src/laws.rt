// Lines of a plane group as planes of a group of space. A call does nothing: its contract is the law.
ghost use Rattle.std.specs.Prelude.{◌↔◌};
ghost use Rattle.symmetry.specs.Vectors.{Vector};
ghost use Rattle.symmetry.specs.Motions.{Point};
ghost use Rattle.symmetry.specs.Planes.{Height, IsOn, KeepsPlane};
ghost use Rattle.symmetry.specs.Groups.{FixesEveryPlane, InStabiliser, IsMember, Listing};
ghost use Rattle.symmetry.specs.Frames.{IsSpecial};
ghost use Rattle.motions.specs.PlaneMatrices.{Pair, in_space};
ghost use Rattle.plane_motions.specs.PlaneMotions.{PlaneMotion, plane_block};
ghost use Rattle.line_frames.specs.Lines.{first_two};
ghost use Rattle.plane_groups.specs.PlaneGroups.{IsFlatGroup};
ghost use Rattle.line_scans.specs.Lines.{FixesEveryLine, InLineStabiliser, IsOnLine, IsPlaneMember, IsSpecialLine, KeepsLine};

/// The point (X,Y,Z) over n lies on the plane (h k 0) of a height exactly where (X,Y) over n lies on the line of it. A motion
/// of the plane maps the line to itself exactly where it maps that plane to itself as a motion of space.
pub fn line_as_plane()
    ensures points { (r : Pair) (s : Height) (p : Point) →
        IsOn (in_space r) s p ↔ IsOnLine r s (record { at = first_two p.at; over = p.over }) }
    ensures motions { (r : Pair) (s : Height) (m : PlaneMotion) →
        KeepsPlane (in_space r) s (plane_block m) ↔ KeepsLine r s m }
{}

/// In a plane group a motion of the plane is a member, and maps a line, or every line, to itself, exactly where it does so
/// as a motion of space; and a height is special for lines exactly where it is so for planes.
pub fn line_stabilisers_as_plane_stabilisers()
    ensures members { (g : Listing) (m : PlaneMotion) → IsFlatGroup g →
        IsMember g (plane_block m) ↔ IsPlaneMember g m }
    ensures each { (g : Listing) (r : Pair) (s : Height) (m : PlaneMotion) → IsFlatGroup g →
        InStabiliser g (in_space r) s (plane_block m) ↔ InLineStabiliser g r s m }
    ensures every { (g : Listing) (r : Pair) (m : PlaneMotion) → IsFlatGroup g →
        FixesEveryPlane g (in_space r) (plane_block m) ↔ FixesEveryLine g r m }
    ensures special { (g : Listing) (r : Pair) (s : Height) → IsFlatGroup g →
        IsSpecial g (in_space r) s ↔ IsSpecialLine g r s }
{}
