// What is said of the command's use: a verb's right form, and its help. No verb stands for the command itself.
use host::{Host, OUTPUT};

#[derive(Clone, Copy, PartialEq, Eq)]
pub(crate) enum Verb {
    Confirm,
    Record,
    Extract,
    Packets,
    Finish,
    Ask,
    Check,
    Unfinish,
    Scramble,
    Descramble,
    Help,
}

const VERBS: [Verb; 11] = [
    Verb::Confirm,
    Verb::Record,
    Verb::Extract,
    Verb::Packets,
    Verb::Finish,
    Verb::Ask,
    Verb::Check,
    Verb::Unfinish,
    Verb::Scramble,
    Verb::Descramble,
    Verb::Help,
];

impl Verb {
    // The verb of this name, if there is one.
    pub(crate) fn named(name: &[u8]) -> Option<Verb> {
        VERBS.into_iter().find(|verb| verb.name() == name)
    }

    pub(crate) fn name(self) -> &'static [u8] {
        match self {
            Verb::Confirm => b"confirm",
            Verb::Record => b"record",
            Verb::Extract => b"extract",
            Verb::Packets => b"packets",
            Verb::Finish => b"finish",
            Verb::Ask => b"ask",
            Verb::Check => b"check",
            Verb::Unfinish => b"unfinish",
            Verb::Scramble => b"scramble",
            Verb::Descramble => b"descramble",
            Verb::Help => b"help",
        }
    }

    // Its right form.
    fn form(self) -> &'static [u8] {
        match self {
            Verb::Confirm => b"confirm [FILE | FOLDER]..\n",
            Verb::Record => {
                b"record [--into FOLDER [--frames N]] [--packets FILE] [--fall LINE] SYSTEM START\n"
            }
            Verb::Extract => b"extract [--packets FILE] [FILE | FOLDER]\n",
            Verb::Packets => b"packets [FILE | FOLDER]\n",
            Verb::Finish => b"finish [RECORDING] FINISHED\n",
            Verb::Ask => b"ask FINISHED SYSTEM START A B\n",
            Verb::Check => b"check FINISHED SYSTEM START\n",
            Verb::Unfinish => b"unfinish FINISHED SYSTEM START\n",
            Verb::Scramble => b"scramble\n",
            Verb::Descramble => b"descramble\n",
            Verb::Help => b"help [VERB]\n",
        }
    }

    // What its help says, in lines.
    fn text(self) -> &'static [&'static [u8]] {
        match self {
            Verb::Confirm => &[
                b"One recording (with no name that on standard input) gives five lines, of which",
                b"RESULT 0 0 0 is accepted and another RESULT is number, line and place of the",
                b"refusal. Several give a line each, and totals. A folder is one programme, in",
                b"recordings 0001.rec and on. A recording cut between two lines is accepted:",
                b"compare LINES with what was recorded.",
            ],
            Verb::Record => &[
                b"Takes v210 rows of 720 pixels from standard input, those of the V = 0 lines in",
                b"line order: 487 a frame of 525, 576 of 625. A recording has at most 10000000",
                b"lines: 10 minutes 40 seconds of 625, 10 minutes 35 seconds of 525. With --into",
                b"the next goes on by itself: FOLDER/0001.rec and so on, cut between frames,",
                b"with --frames after at most N of them. With --packets each line gets the packets",
                b"that FILE has for it, as extract --packets writes it, and after the last row",
                b"lines go on as far as packets need. What FILE has for no line is refused.",
                b"With --fall, for old cameras of 525, V of the first field falls at LINE, 10 to",
                b"20, and of the second 263 lines later. A frame then has 527 - 2 * LINE rows: 487",
                b"with 20, as without the option, and 507 with 10. 625 ignores LINE.",
            ],
            Verb::Extract => &[
                b"Writes the v210 rows of the lines whose own V is 0 to standard output, up to the",
                b"first refusal, and says what confirm says on standard error. With no name it",
                b"reads standard input. A folder is one programme, in recordings 0001.rec and on.",
                b"With --packets the ancillary packets of all lines, captions among them, go to",
                b"FILE, which is made; one that holds something is not touched.",
            ],
            Verb::Packets => &[
                b"Lists the ancillary packets of a recording, a line of text for each:",
                b"    0 21 between 61 01 73",
                b"The line's ordinal from 0 and its number, the space (between EAV and SAV, or",
                b"active part), the two identifiers in hexadecimal, the count of user words. It",
                b"reads as extract does, and says what confirm says on standard error.",
            ],
            Verb::Finish => &[
                b"Makes a finished file of a recording (with no name that on standard input): its",
                b"lines, an index of those that were not clean, and a trailer. Says system, start,",
                b"lines and unclean lines: keep system and start, which the file has not. A refused",
                b"recording leaves no finished file, and a file that is there is not touched.",
            ],
            Verb::Ask => &[
                b"Tells whether lines A to B, ordinals from 0 and both included, are all clean: had",
                b"no repaired code. Reads the trailer and the index alone, however many lines there",
                b"are. What it tells is what reading every line would, where check finds the index",
                b"to be theirs. Status: 0 for all clean, 1 for not, 2 where the file is refused (19,",
                b"or 20 for lines that it has not) or could not be read.",
            ],
            Verb::Check => &[
                b"Reads every line of a finished file and tells whether all are accepted and the",
                b"index is theirs, or the first that is refused, or the first where the index",
                b"differs. Status: 0 for yes, 1 for no, 2 where the file is refused or could not",
                b"be read.",
            ],
            Verb::Unfinish => &[
                b"Writes a finished file's lines behind a header to standard output: the recording",
                b"that it was made of, as confirm and extract take it. Status: 2 where the file is",
                b"refused or could not be read.",
            ],
            Verb::Scramble | Verb::Descramble => &[
                b"Reads words of 16 bits, low byte first, from standard input, and writes such",
                b"words to standard output. A word over 1023 is refused.",
            ],
            Verb::Help => GENERAL,
        }
    }
}

// The form of the command itself.
const FORM: &[u8] =
    b"confirm | record | extract | packets | finish | ask | check | unfinish |\n                scramble | descramble | help ..\n";

// What the help of the command itself says.
const GENERAL: &[&[u8]] = &[
    b"  confirm      whether recordings read as programmes that were written",
    b"  record       v210 rows into a recording, or into a row of them in a folder",
    b"  extract      the v210 rows of a recording",
    b"  packets      a list of the ancillary packets in a recording",
    b"  finish       a recording into a file that answers from its end",
    b"  ask          whether lines of a finished file are all clean, from its end",
    b"  check        whether all lines of a finished file bear that answer out",
    b"  unfinish     the recording that a finished file was made of",
    b"  scramble     words as they go over the serial channel",
    b"  descramble   the words that scramble was given",
    b"  help [VERB]  this text, or a verb's",
    b"Status: 0 where all was taken and written, 1 where something was refused,",
    b"2 where the system failed or the use is wrong. More: man fiskrogn",
];

// Writes a verb's right form. True where all of it was written.
pub(crate) fn print_usage(host: &mut Host, output: i32, verb: Option<Verb>) -> bool {
    host.write_all(output, b"usage: fiskrogn ")
        & host.write_all(output, verb.map_or(FORM, Verb::form))
}

// Writes lines. True where all of them were written.
fn lines(host: &mut Host, texts: &[&[u8]]) -> bool {
    let mut is_written = true;
    for text in texts {
        is_written = is_written & host.write_all(OUTPUT, text) & host.write_all(OUTPUT, b"\n");
    }
    is_written
}

// Writes a verb's help. True where all of it was written.
pub(crate) fn print(host: &mut Host, verb: Option<Verb>) -> bool {
    print_usage(host, OUTPUT, verb) & lines(host, verb.map_or(GENERAL, Verb::text))
}
