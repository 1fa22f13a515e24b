ghost use Rattle.std.specs.Prelude.{◌≡◌};
ghost use Rattle.pq_read.specs.declared.program.Options.{Options};
ghost use Rattle.pq_text.specs.Program.{ProgramView};
ghost use Rattle.pq_text.specs.WellFormed.{WellFormed};
ghost use Rattle.pq_text.specs.Print.{print};
ghost use Rattle.pq_read.specs.Reads.{Reads};

/// The canonical text of a well-formed program is read as this program, with each option.
pub fn texts_are_read_back()
    ensures { (p : ProgramView) (options : Options) → WellFormed p → Reads (print p) options p }
{}
