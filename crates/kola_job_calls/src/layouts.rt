//! The sections of jobs.

use kola_top::{LayoutFault, LayoutWhy, Sections, Span, sections};

/// The places of a job of so many lines that has a query alone.
fn query(from: usize, to: usize, lines: u64) -> Result<Sections, LayoutFault> {
    Ok(Sections {
        schema: None,
        database: None,
        rules: None,
        query: Some(Span { from, to }),
        lines,
    })
}

fn fault(line: u64, why: LayoutWhy) -> Result<Sections, LayoutFault> {
    Err(LayoutFault { line, why })
}

#[test]
fn sections_are_found_or_the_first_faulty_line(rt: HostRuntime) {
    let none = Ok(Sections {
        schema: None,
        database: None,
        rules: None,
        query: None,
        lines: 0,
    });
    let cases = [
        ("", none),
        ("%% query", query(8, 8, 1)),
        ("%% query\nselect\n", query(9, 16, 2)),
        (" \t\n\r\n%% query \t\r\nx\r\n\n", query(17, 21, 5)),
        ("x", fault(1, LayoutWhy::TextBefore)),
        ("\n %% query\n", fault(2, LayoutWhy::TextBefore)),
        ("\r", fault(1, LayoutWhy::TextBefore)),
        ("%% query\r", fault(1, LayoutWhy::UnknownSection)),
        ("%% query\r\r\n", fault(1, LayoutWhy::UnknownSection)),
        ("%%query\n", fault(1, LayoutWhy::UnknownSection)),
        ("%% Query\n", fault(1, LayoutWhy::UnknownSection)),
        (
            "\n%% rules\n%% query\n",
            Ok(Sections {
                schema: None,
                database: None,
                rules: Some(Span { from: 10, to: 10 }),
                query: Some(Span { from: 19, to: 19 }),
                lines: 3,
            }),
        ),
        (
            "%% query\n%% rules\n",
            fault(2, LayoutWhy::SectionOutOfOrder),
        ),
        (
            "%% query\n%% schema\n",
            fault(2, LayoutWhy::SectionOutOfOrder),
        ),
        (
            "%% query\nx\n%% query\n%%\n",
            fault(3, LayoutWhy::SectionOutOfOrder),
        ),
    ];
    for (job, want) in cases {
        assert_eq!(rt; sections(job.as_bytes()), want, "at {job:?}");
    }
}
