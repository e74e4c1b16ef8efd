//! The words `check` and `judge`: scripts that are judged, each on a platform of its own.

use crate::fault::Fault;
use crate::files::{self, IncludedFiles};
use crate::progress::{Progress, size_of_input};
use crate::{image, own};
use iom_asm::LoadFault;
use iom_check::{Rules, Style, Tally};
use iom_cli::{
    Checks, Escaped, SUITES_END, SUITES_HEAD, Sum, TAP_HEAD, Traces, begins_as_image,
    put_error_case, put_fault_point, put_plan, put_suite, put_sum, without_image,
};
use iom_core::Request;
use iom_debug::{OutputPage, first_bytes, put_escaped};
use iom_reader::RunFault;
use iom_scripts::{CheckedScript, ScriptFault, check_script, judge_script, requests_named};
use std::alloc::Global;
use std::fs::Files;
use std::io::{Read, Write};
use std::time::Clock;

/// What standard input is called among files.
const INPUT: &str = "-";

/// What the suite of a script without a name is called.
const UNNAMED: &str = "script";

/// Scripts that are judged one after the other, and what is written of them.
#[derive(Drop)]
struct Round<'r, R, W> {
    rt: &'r R,
    alloc: Global,
    // how traces are judged; None: scripts are checked
    traces: Option<Traces>,
    // the style is that of standard output
    rules: Rules,
    // whether standard error is a terminal
    has_terminal: bool,
    output: W,
    // JUnit's XML, where it is wanted
    suites: Option<Vec<u8>>,
    // whether the words name an image: then no script does
    names_image: bool,
    // whether an IOMMU may read ahead what a script names: then each is read as a whole, and run twice
    reads_ahead: bool,
    sum: Sum,
}

impl<R: Clock + Eprint + Files, W: Write> Round<'_, R, W> {
    // How many test points there are by now.
    fn points(&self) -> u64 {
        let judged = self.sum.passed.saturating_add(self.sum.failed);
        judged.saturating_add(self.sum.unread)
    }

    // Writes to standard output.
    fn write<'f>(&mut self, text: &[u8]) -> Result<(), Fault<'f>> {
        Ok(self.output.write_all(text).map_err(|_| RunFault::Write)?)
    }

    // The report of a fault: with the name of its file, if that isn't in it.
    fn told<'f>(&self, name: Option<&str>, fault: &Fault<'_>) -> Result<String, Fault<'f>> {
        Ok(match (name, fault) {
            (None, _)
            | (
                _,
                Fault::Assemble { .. }
                | Fault::CannotRead { .. }
                | Fault::Include { .. }
                | Fault::OwnImage { .. }
                | Fault::TwoImages { .. },
            ) => format!(in self.alloc; "{fault}")?,
            (Some(name), _) => format!(in self.alloc; "{}: {fault}", Escaped(name))?,
        })
    }

    // Reports that a script wasn't judged to its end, on standard error after all that was written before, and as a test point of TAP.
    fn tell<'f>(&mut self, text: &str) -> Result<(), Fault<'f>> {
        self.output.flush().map_err(|_| RunFault::Write)?;
        let _ = self.rt.eprintln(format_args!("rviommu: {text}"));
        if let Style::Tap = self.rules.style {
            let mut point = Vec::new(self.alloc);
            let number = self.points().saturating_add(1);
            put_fault_point(&mut point, number, text.as_bytes())?;
            self.write(point.as_slice())?;
        }
        self.sum.unread = self.sum.unread.saturating_add(1);
        Ok(())
    }

    // Appends a suite to JUnit's XML, if it is wanted.
    fn add_suite<'f>(
        &mut self,
        name: Option<&str>,
        tally: Tally,
        mut cases: Vec<u8>,
        fault: Option<&str>,
    ) -> Result<(), Fault<'f>> {
        let Some(suites) = &mut self.suites else {
            return Ok(());
        };
        // As its test cases name it.
        let mut class = OutputPage::new();
        put_escaped(&mut class, first_bytes(name.unwrap_or(UNNAMED).as_bytes()));
        if let Some(text) = fault {
            put_error_case(&mut cases, class.as_slice(), text.as_bytes())?;
        }
        let sum = Sum {
            scripts: 1,
            passed: tally.passed,
            failed: tally.failed,
            unread: fault.is_some() as u64,
        };
        Ok(put_suite(suites, class.as_slice(), &sum, cases.as_slice())?)
    }

    // Reports a file that can't be read, or is no image.
    fn refuse<'f>(&mut self, name: Option<&str>, fault: &Fault<'_>) -> Result<(), Fault<'f>> {
        let text = self.told(name, fault)?;
        self.tell(text.as_str())?;
        let none = Tally {
            passed: 0,
            failed: 0,
        };
        self.add_suite(name, none, Vec::new(self.alloc), Some(text.as_str()))
    }

    // The requests that may be read ahead of a script that was read as a whole; none if nothing is read ahead.
    fn ahead_of<'f>(
        &self,
        image: &[u8],
        name: Option<&str>,
        mut script: &[u8],
    ) -> Result<Vec<Request>, Fault<'f>> {
        if !self.reads_ahead {
            return Ok(Vec::new(self.alloc));
        }
        let files = IncludedFiles::new(self.rt);
        Ok(requests_named(self.alloc, image, &files, name, &mut script)?)
    }

    // The word for what is done.
    fn word(&self) -> &'static str {
        match self.traces {
            Some(_) => "judge",
            None => "check",
        }
    }

    // Judges a script on an image, and writes its reports. Returns the report of the fault that ended it before its end.
    fn play<'f>(
        &mut self,
        image: &[u8],
        name: Option<&str>,
        ahead: Vec<Request>,
        input: &mut impl Read,
    ) -> Result<Option<String>, Fault<'f>> {
        let points = self.points();
        let files = IncludedFiles::new(self.rt);
        let checked = judge(
            self.alloc,
            self.traces,
            image,
            &files,
            self.rules,
            name,
            points,
            ahead,
            input,
            &mut self.output,
        );
        let fault = match checked {
            Ok(checked) => {
                self.sum.passed = self.sum.passed.saturating_add(checked.tally.passed);
                self.sum.failed = self.sum.failed.saturating_add(checked.tally.failed);
                match checked.ended {
                    Ok(()) => return Ok(None),
                    Err(ScriptFault::Run(RunFault::Write)) => {
                        return Err(Fault::Run(RunFault::Write));
                    }
                    Err(fault) => Fault::of_script(fault, files.why()),
                }
            }
            Err(fault) => Fault::from(fault),
        };
        let text = self.told(name, &fault)?;
        self.tell(text.as_str())?;
        Ok(Some(text))
    }

    // Judges once more a script that was judged, for JUnit's XML.
    fn play_again<'f>(
        &mut self,
        image: &[u8],
        name: Option<&str>,
        mut script: &[u8],
        fault: Option<&str>,
    ) -> Result<(), Fault<'f>> {
        let mut cases = Vec::new(self.alloc);
        let ahead = self.ahead_of(image, name, script)?;
        let rules = Rules {
            style: Style::Junit,
            ..self.rules
        };
        let files = IncludedFiles::new(self.rt);
        let checked = judge(
            self.alloc,
            self.traces,
            image,
            &files,
            rules,
            name,
            0,
            ahead,
            &mut script,
            &mut cases,
        )?;
        // A vector can't be written where memory is refused.
        if let Err(ScriptFault::Run(RunFault::Write) | ScriptFault::OutOfMemory) = checked.ended {
            return Err(Fault::OutOfMemory);
        }
        self.add_suite(name, checked.tally, cases, fault)
    }

    // Judges a script that was read as a whole, on an image.
    fn judge_whole<'f>(
        &mut self,
        image: &[u8],
        name: Option<&str>,
        script: &[u8],
    ) -> Result<(), Fault<'f>> {
        let size = if self.has_terminal {
            Some(script.len() as u64)
        } else {
            None
        };
        let ahead = self.ahead_of(image, name, script)?;
        let mut input = Progress::new(self.rt, self.word(), size, script);
        let ended = self.play(image, name, ahead, &mut input);
        input.clear();
        let fault = ended?;
        if self.suites.is_some() {
            let fault = fault.as_ref().map(|text| text.as_str());
            self.play_again(image, name, script, fault)?;
        }
        Ok(())
    }

    // Judges a script that was read as a whole: on the image that it names itself, or else on this one.
    fn judge_bytes<'f>(
        &mut self,
        image: &[u8],
        name: Option<&str>,
        script: &[u8],
    ) -> Result<(), Fault<'f>> {
        let from = name.unwrap_or("");
        match own::image(self.rt, self.alloc, self.names_image, from, script) {
            Ok(None) => self.judge_whole(image, name, script),
            Ok(Some(own)) => self.judge_whole(own.as_slice(), name, without_image(script)),
            Err(fault) => self.refuse(name, &fault),
        }
    }

    // Judges the script on standard input, which is read as a whole only where it is judged twice.
    fn judge_input<'f>(
        &mut self,
        image: &[u8],
        name: Option<&str>,
        input: &mut impl Read,
    ) -> Result<(), Fault<'f>> {
        if self.suites.is_some() || self.reads_ahead {
            return match files::read_script(self.alloc, input) {
                Ok(script) => self.judge_bytes(image, name, script.as_slice()),
                Err(fault) => self.refuse(name, &fault),
            };
        }
        let from = name.unwrap_or("");
        let (own, script) = match own::begin(self.rt, self.alloc, self.names_image, from, input) {
            Ok(begun) => begun,
            Err(fault) => return self.refuse(name, &fault),
        };
        let image = own.as_ref().map_or(image, |own| own.as_slice());
        let size = size_of_input(self.rt, self.has_terminal);
        let mut input = Progress::new(self.rt, self.word(), size, script);
        let ended = self.play(image, name, Vec::new(self.alloc), &mut input);
        input.clear();
        let _told = ended?;
        Ok(())
    }

    // Judges the script of a file.
    fn judge_file<'f>(&mut self, image: &[u8], name: &str) -> Result<(), Fault<'f>> {
        match files::read(self.rt, self.alloc, name) {
            Ok(script) => self.judge_bytes(image, Some(name), script.as_slice()),
            Err(fault) => self.refuse(Some(name), &fault),
        }
    }

    // Judges scripts on an image; if there is none, standard input.
    fn judge_scripts<'f>(
        &mut self,
        image: &[u8],
        scripts: &[Option<&str>],
        input: &mut impl Read,
    ) -> Result<(), Fault<'f>> {
        if scripts.is_empty() {
            return self.judge_input(image, None, input);
        }
        for script in scripts {
            self.sum.scripts = self.sum.scripts.saturating_add(1);
            match *script {
                Some(name) => self.judge_file(image, name)?,
                None => self.judge_input(image, Some(INPUT), input)?,
            }
        }
        Ok(())
    }

    // Judges scripts on the image that was read from a file.
    fn judge_on<'f>(
        &mut self,
        name: &str,
        image: &[u8],
        scripts: &[Option<&str>],
        input: &mut impl Read,
    ) -> Result<(), Fault<'f>> {
        self.names_image = true;
        match iom_asm::judge(image) {
            Ok(()) => self.judge_scripts(image, scripts, input),
            Err(fault) => self.refuse(Some(name), &Fault::from(fault)),
        }
    }

    // Judges scripts on the image in a file, or on that of the text in it.
    fn judge_on_named<'f>(
        &mut self,
        name: &str,
        scripts: &[Option<&str>],
        input: &mut impl Read,
    ) -> Result<(), Fault<'f>> {
        match image::read(self.rt, self.alloc, name) {
            Ok(image) => self.judge_on(name, image.as_slice(), scripts, input),
            Err(fault) => self.refuse(Some(name), &fault),
        }
    }

    // Of one file that is no text, and no image: if it begins as an image does, it is the image of the script on standard input, else a script.
    fn judge_one<'f>(&mut self, name: &str, input: &mut impl Read) -> Result<(), Fault<'f>> {
        match files::read(self.rt, self.alloc, name) {
            Ok(bytes) if begins_as_image(bytes.as_slice()) => {
                self.judge_on(name, bytes.as_slice(), &[], input)
            }
            Ok(bytes) => {
                self.sum.scripts = 1;
                self.judge_bytes(&iom_asm::built_in(), Some(name), bytes.as_slice())
            }
            Err(fault) => {
                self.sum.scripts = 1;
                self.refuse(Some(name), &fault)
            }
        }
    }

    // Judges all scripts that the words name.
    fn judge_all<'f>(
        &mut self,
        checks: &Checks<'_>,
        input: &mut impl Read,
    ) -> Result<(), Fault<'f>> {
        let scripts = checks.scripts.as_slice();
        match (checks.image, scripts) {
            (Some(name), _) => self.judge_on_named(name, scripts, input),
            (None, [Some(name)]) if image::is_text(name) => self.judge_on_named(name, &[], input),
            (None, [Some(name)]) => self.judge_one(name, input),
            (None, _) => self.judge_scripts(&iom_asm::built_in(), scripts, input),
        }
    }

    // Writes what stands before the first script.
    fn begin<'f>(&mut self) -> Result<(), Fault<'f>> {
        if let Style::Tap = self.rules.style {
            self.write(TAP_HEAD)?;
        }
        if let Some(suites) = &mut self.suites {
            suites.extend_from_slice(SUITES_HEAD)?;
        }
        Ok(())
    }

    // Writes what stands behind the last script: the plan of TAP, or the sum over files where they have names.
    fn end<'f>(&mut self) -> Result<(), Fault<'f>> {
        let mut text = Vec::new(self.alloc);
        match self.rules.style {
            Style::Tap => put_plan(&mut text, self.points())?,
            _ if self.sum.scripts > 0 => put_sum(&mut text, &self.sum)?,
            _ => (),
        }
        self.write(text.as_slice())?;
        if let Some(suites) = &mut self.suites {
            suites.extend_from_slice(SUITES_END)?;
        }
        Ok(self.output.flush().map_err(|_| RunFault::Write)?)
    }
}

// Judges a script by these rules, behind so many test points: as a trace, or by its expected answers.
fn judge<R: Files>(
    alloc: Global,
    traces: Option<Traces>,
    image: &[u8],
    files: &IncludedFiles<'_, R>,
    rules: Rules,
    name: Option<&str>,
    points: u64,
    ahead: Vec<Request>,
    input: &mut impl Read,
    output: &mut impl Write,
) -> Result<CheckedScript, LoadFault> {
    match traces {
        Some(Traces { hides }) => {
            judge_script(
                alloc, image, files, rules, hides, name, points, input, output,
            )
        }
        None => check_script(
            alloc, image, files, rules, name, points, ahead, input, output,
        ),
    }
}

// How what the words ask for is judged, and written to standard output.
fn rules_of(checks: &Checks<'_>) -> Rules {
    Rules {
        fails_if_stale: checks.fails_if_stale,
        looks_at_fences: checks.looks_at_fences,
        fails_if_unsettled: checks.fails_if_unsettled,
        is_strict: checks.is_strict,
        style: if checks.is_tap {
            Style::Tap
        } else {
            Style::Text
        },
    }
}

/// Judges the scripts that the words name, and writes their reports. A script that can't be read, or judged to its end, is reported and counted
/// in the sum. The faults are those that end all: of a write, and of memory.
pub fn judge_named<'a>(
    rt: &(impl Clock + Eprint + Files),
    alloc: Global,
    checks: &Checks<'a>,
    input: &mut impl Read,
    output: impl Write + Drop,
    has_terminal: bool,
) -> Result<Sum, Fault<'a>> {
    let mut round = Round {
        rt,
        alloc,
        traces: checks.traces,
        rules: rules_of(checks),
        has_terminal,
        output,
        suites: checks.junit.map(|_| Vec::new(alloc)),
        names_image: false,
        reads_ahead: checks.reads_ahead,
        sum: Sum {
            scripts: 0,
            passed: 0,
            failed: 0,
            unread: 0,
        },
    };
    round.begin()?;
    round.judge_all(checks, input)?;
    round.end()?;
    if let (Some(name), Some(suites)) = (checks.junit, &round.suites) {
        files::write(rt, alloc, name, suites.as_slice())?;
    }
    Ok(round.sum)
}
