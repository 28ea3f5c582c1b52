// What a text says is one thing, for a text of any length, and the limit of what is read, in numbers. A call does nothing:
// its contract is the law.
ghost use Rattle.std.specs.Prelude.{◌≡◌, ◌≢◌, ◌==◌, ◌++◌, ℕ, Bool, List, [], if◌then◌else◌};
ghost use Rattle.symmetry.specs.Groups.{Listing};
ghost use Rattle.symmetry.specs.Vectors.{Vector};
ghost use Rattle.triplets.specs.BegunLines.{AreBegunVectors};
ghost use Rattle.triplets.specs.Bytes.{hash};
ghost use Rattle.triplets.specs.Grammar.{Blank, blanks_text};
ghost use Rattle.triplets.specs.Headings.{heading_word};
ghost use Rattle.triplets.specs.KeptTexts.{IsKept};
ghost use Rattle.triplets.specs.LineFaults.{HasLineKind};
ghost use Rattle.triplets.specs.Texts.{Fault, IsGroupText, IsTextFault};
ghost use Rattle.triplets.specs.declared.fault.TextKind.{TextKind};
ghost use Rattle.triplets.specs.declared.notation.Notation.{Notation};
ghost use Rattle.triplets.specs.declared.notation.Notation.TheVariants.{Pairs};
ghost use Rattle.plane_motions.specs.PlaneMotions.{IsFlatListing};
ghost use Rattle.triplets.specs.declared.fault.TextKind.TheVariants.{MissingPart, UnknownSign};
ghost use Rattle.triplets.specs.declared.group.TheConstants.{MOST_BYTES};

/// A text lists one thing, and its operations are generators or are not.
pub fn one_listing()
    ensures generated { (notation : Notation) (text : List ℕ) (b b' : Bool) (g g' : Listing)
        → IsGroupText notation text b g → IsGroupText notation text b' g' → b ≡ b' }
    ensures listing { (notation : Notation) (text : List ℕ) (b b' : Bool) (g g' : Listing)
        → IsGroupText notation text b g → IsGroupText notation text b' g' → g ≡ g' }
{}

/// A text has one fault: the first bad line, the column at which no good line goes on, and the kind by the table.
pub fn one_fault()
    ensures { (notation : Notation) (text : List ℕ) (f f' : Fault)
        → IsTextFault notation text f → IsTextFault notation text f' → f ≡ f' }
{}

/// A text with a fault lists nothing.
pub fn no_listing_and_fault()
    ensures { (notation : Notation) (text : List ℕ) (b : Bool) (g : Listing) (f : Fault)
        → IsTextFault notation text f → IsGroupText notation text b g → ⊥ }
{}

/// The vectors that stand whole at the beginning of a line are one list.
pub fn one_begun_row()
    ensures { (notation : Notation) (line : List ℕ) (vs vs' : List Vector)
        → AreBegunVectors notation line vs → AreBegunVectors notation line vs' → vs ≡ vs' }
{}

/// What is kept of a text is one listing, of generators or not, and its next byte has one place.
pub fn one_kept()
    ensures { (notation : Notation) (text : List ℕ) (b b' : Bool) (g g' : Listing) (l l' c c' : ℕ)
        → IsKept notation text b g l c → IsKept notation text b' g' l' c'
        → (b ≡ b') × (g ≡ g') × (l ≡ l') × (c ≡ c') }
{}

/// Behind letters of the heading's word a comment comes too early, and any other byte is one that cannot stand there.
pub fn kind_in_heading()
    ensures { (notation : Notation) (blanks : List Blank) (letters rest : List ℕ)
        (b : ℕ) (kind : TextKind)
        → letters ++ rest ≡ heading_word → letters ≢ []
        → HasLineKind notation (blanks_text blanks ++ letters) b kind
        → kind ≡ (if b == hash then MissingPart else UnknownSign) }
{}

/// What a text of pairs lists is flat: its operations leave the third axis as it is, and its vectors have the third
/// entry 0.
pub fn pairs_are_flat()
    ensures { (text : List ℕ) (b : Bool) (g : Listing)
        → IsGroupText Pairs text b g → IsFlatListing g }
{}

/// The limit that contracts name by its number.
pub fn limit_in_numbers()
    ensures { MOST_BYTES ≡ 65536 }
{}
