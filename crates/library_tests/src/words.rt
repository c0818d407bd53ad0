//! Faults in words, which the program never prints.
use expr_parser::ExprFault;
use expr_tokens::Excluded;
use rules_reader::compile;
use std::alloc::{AllocError, Global};
use std::test::Fail;

fn printed(alloc: Global, file: &str) -> Result<String, AllocError> {
    match compile(alloc, file.as_bytes()) {
        Ok(_) => String::from_str(alloc, "no fault"),
        Err(fault) => format!(in alloc; "{fault}"),
    }
}

const RULES_FILES: [(&str, &str); 6] = [
    ("{", "no JSON, or too long"),
    ("{}", "not the shape of a rules file"),
    (
        "{\"rules\":{\".read\":\"@\"}}",
        ".read is no rule: no expression at byte 0",
    ),
    (
        "{\"rules\":{\".read\":\"1 / 2\"}}",
        ".read is no rule: `/` is not in the profile",
    ),
    (
        "{\"rules\":{\".write\":\"data\"}}",
        ".write is no rule: a value of another sort is wanted",
    ),
    (
        "{\"rules\":{\".validate\":\"$a\"}}",
        ".validate is no rule: `$a` is no name here",
    ),
];

#[test]
fn faults_of_rules_files(rt: HostRuntime) -> Result<(), Fail> {
    for (file, words) in RULES_FILES {
        assert_eq!(rt; printed(rt.alloc(), file)?.as_str(), words);
    }
    Ok(())
}

#[test]
fn faults_of_expressions(rt: HostRuntime) -> Result<(), Fail> {
    for (fault, words) in [
        (
            ExprFault::BadExpression { byte: 4 },
            "no expression at byte 4",
        ),
        (
            ExprFault::NotInProfile(Excluded::Bracket),
            "`[` is not in the profile",
        ),
        (ExprFault::NoMemory, "out of memory"),
    ] {
        let said = format!(in rt.alloc(); "{fault}")?;
        assert_eq!(rt; said.as_str(), words);
    }
    Ok(())
}
