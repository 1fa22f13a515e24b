ghost use Rattle.std.specs.Prelude.{◌≡◌, ℕ, ◌+◌, ◌-◌, ◌*◌, ◌≤◌, List, ◌++◌, length};
ghost use Rattle.pq_gate.specs.Matrix.{Same};
ghost use Rattle.pq_text.specs.Program.{ProgramView, places_of};
ghost use Rattle.pq_text.specs.Print.{print};
ghost use Rattle.pq_read.specs.declared.program.Options.{Options};
ghost use Rattle.pq_read.specs.Reads.{Reads};
ghost use Rattle.pq_rules.specs.Table.{builtin_rows};
ghost use Rattle.pq_loop.specs.Gaps.{first_fingers};
ghost use Rattle.pq_loop.specs.Redex.{HasNoRedex};
ghost use Rattle.pq_loop.specs.Round.{run};
ghost use Rattle.pq_loop.specs.Opt.{Total, calls_of, phase_of, Opt};
ghost use Rattle.pq_write.specs.declared.report.ReportNumbers.{ReportNumbers};
ghost use Rattle.pq_write.specs.Report.{report_text};
ghost use Rattle.pq_command.specs.declared.settings.Settings.{Settings};
ghost use Rattle.pq_top.specs.Device.{NeverFails};
ghost use Rattle.pq_top.specs.Request.{DifferInWorkers};
ghost use Rattle.pq_top.specs.Outputs.{Makes};
ghost use Rattle.pq_top.specs.Promise.{OptRun, Optimises};

use pq_io::{Sink, Source, SureSink, SureSource};

/// What `opt` promises of each run that was done: with its window, which is Omega, it optimises the text, from the program
/// p that the text stands for to the program q of the output, with a report.
pub fn opt_keeps_its_promise()
    ensures optimises { (window workers : ℕ) (options : Options) (text output : List ℕ) → OptRun window workers options text output
        → (p q : ProgramView) × (report : ReportNumbers) × Optimises window options text output p q report }

    // The text stands for p. The output is the canonical text of q, which is read as q, and then the report. q has p's
    // registers and tail.
    ensures text { (window : ℕ) (options : Options) (text output : List ℕ) (p q : ProgramView) (report : ReportNumbers)
        → Optimises window options text output p q report → Reads text options p }
    ensures output { (window : ℕ) (options : Options) (text output : List ℕ) (p q : ProgramView) (report : ReportNumbers)
        → Optimises window options text output p q report → output ≡ print q ++ report_text report }
    ensures again { (window : ℕ) (options : Options) (text output : List ℕ) (p q : ProgramView) (report : ReportNumbers)
        → Optimises window options text output p q report → Reads (print q) options q }
    ensures frame { (window : ℕ) (options : Options) (text output : List ℕ) (p q : ProgramView) (report : ReportNumbers)
        → Optimises window options text output p q report → (q.qregs ≡ p.qregs) × (q.cregs ≡ p.cregs) × (q.tail ≡ p.tail) }

    // p's matrix is ω^phase times q's. No run of at most Omega neighbouring gates of q has a redex of the built-in rules. The
    // calls are at most the first fingers and twice the removed gates.
    ensures matrix { (window : ℕ) (options : Options) (text output : List ℕ) (p q : ProgramView) (report : ReportNumbers)
        → Optimises window options text output p q report → Same (places_of p.qregs) p.gates q.gates report.phase }
    ensures local { (window : ℕ) (options : Options) (text output : List ℕ) (p q : ProgramView) (report : ReportNumbers) (from to : ℕ)
        → Optimises window options text output p q report → from ≤ to → to ≤ length q.gates → to ≤ from + window
        → HasNoRedex builtin_rows (run q.gates from to) }
    ensures calls { (window : ℕ) (options : Options) (text output : List ℕ) (p q : ProgramView) (report : ReportNumbers)
        → Optimises window options text output p q report
        → report.calls ≤ report.first_fingers + 2 * (length p.gates - length q.gates) }

    // The report counts the gates of p and of q, the first fingers, and the rounds and their calls, which lead from p's gates
    // to q's.
    ensures gates { (window : ℕ) (options : Options) (text output : List ℕ) (p q : ProgramView) (report : ReportNumbers)
        → Optimises window options text output p q report → (report.gates_in ≡ length p.gates) × (report.gates_out ≡ length q.gates) }
    ensures first_fingers { (window : ℕ) (options : Options) (text output : List ℕ) (p q : ProgramView) (report : ReportNumbers)
        → Optimises window options text output p q report → report.first_fingers ≡ length (first_fingers (length p.gates) window) }
    ensures rounds { (window : ℕ) (options : Options) (text output : List ℕ) (p q : ProgramView) (report : ReportNumbers)
        → Optimises window options text output p q report → (total : Total) × Opt builtin_rows window p.gates total
        × (q.gates ≡ total.gates) × (report.rounds ≡ length total.rounds) × (report.calls ≡ calls_of total.rounds)
        × (report.phase ≡ phase_of total.rounds) }

    // Whatever the number of workers, the output is the same.
    ensures workers { (window workers others : ℕ) (options : Options) (text output other : List ℕ) → OptRun window workers options text output
        → OptRun window others options text other → output ≡ other }
{}

/// A command makes one output of a text, with one status.
pub fn commands_have_one_output()
    ensures { (wanted : Settings) (text : List ℕ) (status another : ℕ) (output other : List ℕ)
        → Makes wanted text status output → Makes wanted text another other → (status ≡ another) × (output ≡ other) }
{}

/// Settings of `opt`, or of `bench`, that differ in the number of workers alone make the same output of a text, with the
/// same status.
pub fn workers_change_no_output()
    ensures one { (wanted others : Settings) (text : List ℕ) (status another : ℕ) (output other : List ℕ)
        → DifferInWorkers wanted others → Makes wanted text status output → Makes others text another other
        → (status ≡ another) × (output ≡ other) }
    ensures made { (wanted others : Settings) (text : List ℕ) (status : ℕ) (output : List ℕ)
        → DifferInWorkers wanted others → Makes wanted text status output → Makes others text status output }
{}

/// These devices never fail: over them `run_popqc` answers neither 4 nor 5.
pub fn sure_devices_never_fail()
    ensures source { NeverFails ⟦<SureSource as Source>⟧.faults }
    ensures sink { NeverFails ⟦<SureSink as Sink>⟧.faults }
{}
