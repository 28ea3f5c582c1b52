// What a report says, and what the tables of types write. A call does nothing: its contract is the law.
ghost use Rattle.std.specs.Prelude.{◌↔◌, List, All};
ghost use Rattle.fractions.specs.declared.part.Part.{Part};
ghost use Rattle.symmetry.specs.Vectors.{Vector};
ghost use Rattle.symmetry.specs.Planes.{IsCoprime};
ghost use Rattle.symmetry.specs.Groups.{IsGroup, Listing};
ghost use Rattle.symmetry.specs.Frames.{Basis, IsFrame};
ghost use Rattle.symmetry.specs.Listings.{AreAlike};
ghost use Rattle.motions.specs.Views.{parts};
ghost use Rattle.closure.specs.declared.group.Group.{Group};
ghost use Rattle.closure.specs.Groups.{IsGroupOf};
ghost use Rattle.layer_types.specs.Rows.{layer_rows};
ghost use Rattle.line_types.specs.FriezeRows.{frieze_rows};
ghost use Rattle.line_types.specs.RodRows.{rod_rows};
ghost use Rattle.penetration.specs.declared.direction.Direction.{Direction};
ghost use Rattle.penetration.specs.declared.frame.RodBasis.{RodBasis};
ghost use Rattle.penetration.specs.declared.frame.RodFrame.{RodFrame};
ghost use Rattle.penetration.specs.declared.rod.Rod.{Rod};
ghost use Rattle.penetration.specs.DirectionView.{direction_of};
ghost use Rattle.penetration.specs.FrameOf.{IsRodFrameOf};
ghost use Rattle.penetration.specs.RodView.{IsRodOf};
ghost use Rattle.report.specs.RodReports.{IsRodReport};
ghost use Rattle.report.specs.RodReportView.{rod_report_of};
ghost use Rattle.report.specs.Reports.{IsReport, Report};
ghost use Rattle.report.specs.Consequences.{ReportSays};
ghost use Rattle.report.specs.WrittenGenerators.{IsFriezeGenerator, IsLayerGenerator, IsRodGenerator};

/// Every height is in one class of a report, and what the report gives as the operations at a height are, once each modulo
/// the translations of the plane, exactly those that map the plane to itself.
pub fn report_says()
    ensures { (g : Listing) (r : Vector) (f : Basis) (report : Report) → IsGroup g →
        IsCoprime r → IsFrame g r f → IsReport g r f report → ReportSays g r f report }
{}

/// Listings of one group have the same reports.
pub fn alike_reports()
    ensures { (g h : Listing) → AreAlike g h → (r : Vector) (f : Basis) (report : Report) →
        IsReport g r f report ↔ IsReport h r f report }
{}

/// What `rod_at` gives in a rod frame of a group is, of each listing of the group, the report of the line: a rod frame that is not
/// skewed, a' and b' in it, and the operations along the line with the first change of their section onto a rod type.
pub fn rod_says()
    ensures { (g : Listing) (group : Group) (direction : Direction) (basis : RodBasis)
        (frame : RodFrame) (point : List Part) (rod : Rod) →
        IsGroupOf g group → IsRodFrameOf group direction basis frame →
        IsRodOf group frame point rod →
        IsRodReport g (direction_of direction) (parts basis.a) (parts basis.b) (parts point)
        (rod_report_of rod) }
{}

/// Each generator that a table of types writes is a triplet of the grammar of group texts, or a pair for a frieze type, and
/// its value is the motion that the table takes it for.
pub fn generators_are_triplets()
    ensures layers { All (λ row. All IsLayerGenerator row.generators) layer_rows }
    ensures rods { All (λ row. All IsRodGenerator row.generators) rod_rows }
    ensures friezes { All (λ row. All IsFriezeGenerator row.generators) frieze_rows }
{}
