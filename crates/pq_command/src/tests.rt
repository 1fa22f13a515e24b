use crate::{Settings, Switch, UsageFault, WordsError, read_words};
use std::alloc::{AllocError, Global};
use std::process::Abort;
use std::test::Fail;

fn words_of(alloc: Global, words: &[&str]) -> Result<Vec<String>, AllocError> {
    let mut list = Vec::new(alloc);
    for word in words {
        list.push(String::from_str(alloc, word)?)?;
    }
    Ok(list)
}

// The words ask for the settings, or have the fault.
fn expect(
    rt: &(impl Abort + AllocGlobal),
    words: &[&str],
    want: Result<Settings, WordsError>,
) -> Result<(), AllocError> {
    let alloc = rt.alloc();
    let words = words_of(alloc, words)?;
    let result = read_words(alloc, words.as_slice());
    assert_eq!(rt; result, want, "{words:?}");
    Ok(())
}

fn refuses(
    rt: &(impl Abort + AllocGlobal),
    words: &[&str],
    fault: UsageFault,
) -> Result<(), AllocError> {
    expect(rt, words, Err(WordsError::Usage(fault)))
}

fn asks(
    rt: &(impl Abort + AllocGlobal),
    words: &[&str],
    settings: Settings,
) -> Result<(), AllocError> {
    expect(rt, words, Ok(settings))
}

#[test]
fn words_that_clap_does_not_take_are_refused(rt: HostRuntime) -> Result<(), Fail> {
    let cases: [&[&str]; 13] = [
        &[],
        &["--omega", "2"],
        &["opt", "--omega", "2", "--omega", "2"],
        &["opt", "--drop-barriers", "--drop-barriers"],
        &["opt", "--drop-barriers="],
        &["opt", "--drop-barriers=x"],
        &["opt", "--omega", "-1"],
        &["opt", "--omega", "--workers", "4"],
        &["opt", "--omega"],
        &["opt", "--ome", "2"],
        &["-h"],
        &["opt", "--help"],
        &["opt", "check"],
    ];
    for words in cases {
        refuses(&rt, words, UsageFault::Words)?;
    }
    Ok(())
}

#[test]
fn a_word_that_is_no_command_is_refused(rt: HostRuntime) -> Result<(), Fail> {
    let cases: [&[&str]; 6] = [
        &["run"],
        &["OPT"],
        &[""],
        &["-"],
        &["--", "--omega"],
        &["run", "--omega", "x"],
    ];
    for words in cases {
        refuses(&rt, words, UsageFault::Command)?;
    }
    Ok(())
}

#[test]
fn the_first_fault_of_the_options_is_told(rt: HostRuntime) -> Result<(), Fail> {
    let cases: [(&[&str], UsageFault); 10] = [
        (
            &["gen", "--omega", "2"],
            UsageFault::Unwanted(Switch::Omega),
        ),
        (
            &["check", "--workers", "x"],
            UsageFault::Unwanted(Switch::Workers),
        ),
        (
            &["gen", "--drop-barriers"],
            UsageFault::Unwanted(Switch::DropBarriers),
        ),
        (
            &["opt", "--gates", "1", "--seed", "1"],
            UsageFault::Unwanted(Switch::Seed),
        ),
        (
            &["gen", "--seed", "1", "--qubits", "2"],
            UsageFault::Missing(Switch::Gates),
        ),
        (
            &["bench", "--qubits", "0"],
            UsageFault::Missing(Switch::Seed),
        ),
        (
            &["bench", "--seed", "x", "--omega", "0"],
            UsageFault::Range(Switch::Omega),
        ),
        (&["opt", "--omega", "x"], UsageFault::Number(Switch::Omega)),
        (
            &["gen", "--seed", "1", "--qubits", "0", "--gates", "x"],
            UsageFault::Range(Switch::Qubits),
        ),
        (
            &["gen", "--seed", "1", "--qubits", "1", "--gates", "1048577"],
            UsageFault::Range(Switch::Gates),
        ),
    ];
    for (words, fault) in cases {
        refuses(&rt, words, fault)?;
    }
    Ok(())
}

#[test]
fn a_text_that_is_no_number_is_refused(rt: HostRuntime) -> Result<(), Fail> {
    let cases: [&[&str]; 7] = [
        &["opt", "--omega=-1"],
        &["opt", "--omega="],
        &["opt", "--omega", "-"],
        &["opt", "--omega", "+8"],
        &["opt", "--omega", "8 "],
        &["opt", "--omega", "1e1"],
        &["opt", "--omega", "000000000000000000064"],
    ];
    for words in cases {
        refuses(&rt, words, UsageFault::Number(Switch::Omega))?;
    }
    Ok(())
}

#[test]
fn a_number_outside_the_range_is_refused(rt: HostRuntime) -> Result<(), Fail> {
    let cases: [(&[&str], Switch); 5] = [
        (&["opt", "--omega", "1"], Switch::Omega),
        (&["opt", "--omega", "1025"], Switch::Omega),
        (&["opt", "--workers", "0"], Switch::Workers),
        (&["opt", "--workers", "65"], Switch::Workers),
        (
            &[
                "bench",
                "--seed",
                "99999999999999999999",
                "--qubits",
                "1",
                "--gates",
                "0",
            ],
            Switch::Seed,
        ),
    ];
    for (words, switch) in cases {
        refuses(&rt, words, UsageFault::Range(switch))?;
    }
    Ok(())
}

fn opt(omega: u32, workers: u32, drop_barriers: bool) -> Settings {
    Settings::Opt {
        omega,
        workers,
        drop_barriers,
    }
}

#[test]
fn a_command_has_its_numbers_or_the_default_ones(rt: HostRuntime) -> Result<(), Fail> {
    let cases: [(&[&str], Settings); 11] = [
        (&["opt"], opt(64, 4, false)),
        (&["opt", "--omega=8"], opt(8, 4, false)),
        (
            &["--omega", "2", "--workers", "64", "opt"],
            opt(2, 64, false),
        ),
        (
            &["--drop-barriers", "opt", "--omega", "1024"],
            opt(1024, 4, true),
        ),
        (&["opt", "--omega", "0064"], opt(64, 4, false)),
        (
            &["opt", "--workers", "00000000000000000001"],
            opt(64, 1, false),
        ),
        (&["--workers", "7", "--", "opt"], opt(64, 7, false)),
        (
            &["check", "--drop-barriers"],
            Settings::Check {
                omega: 64,
                drop_barriers: true,
            },
        ),
        (
            &[
                "gen",
                "--seed",
                "18446744073709551615",
                "--qubits",
                "4096",
                "--gates",
                "1048576",
            ],
            Settings::Gen {
                seed: u64::MAX,
                qubits: 4096,
                gates: 1_048_576,
            },
        ),
        (
            &["gen", "--gates", "0", "--qubits", "1", "--seed", "0"],
            Settings::Gen {
                seed: 0,
                qubits: 1,
                gates: 0,
            },
        ),
        (
            &["bench", "--seed", "7", "--qubits", "16", "--gates", "20000"],
            Settings::Bench {
                omega: 64,
                workers: 4,
                seed: 7,
                qubits: 16,
                gates: 20000,
            },
        ),
    ];
    for (words, settings) in cases {
        asks(&rt, words, settings)?;
    }
    Ok(())
}

#[test]
fn a_fault_says_what_is_wrong(rt: HostRuntime) -> Result<(), Fail> {
    let cases: [(WordsError, &str); 7] = [
        (
            WordsError::Usage(UsageFault::Words),
            "the words aren't a command with options",
        ),
        (
            WordsError::Usage(UsageFault::Command),
            "there is no such command",
        ),
        (
            WordsError::Usage(UsageFault::Unwanted(Switch::DropBarriers)),
            "the command takes no --drop-barriers",
        ),
        (
            WordsError::Usage(UsageFault::Missing(Switch::Seed)),
            "the command needs --seed",
        ),
        (
            WordsError::Usage(UsageFault::Number(Switch::Gates)),
            "--gates isn't 1 to 20 decimal digits",
        ),
        (
            WordsError::Usage(UsageFault::Range(Switch::Omega)),
            "--omega is outside its range",
        ),
        (WordsError::OutOfMemory, "out of memory"),
    ];
    for (fault, text) in cases {
        let shown = format!(in rt.alloc(); "{fault}")?;
        assert_eq!(rt; shown.as_str(), text);
    }
    Ok(())
}
