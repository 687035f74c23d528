//! What answers mean, as docs/MESSAGES.md has it. `tests/why-codes --write` makes this file.

/// An answer.
#[derive(Clone, Copy)]
pub(crate) struct Message {
    /// The texts that it stands for, each with some value.
    pub(crate) texts: &'static [&'static str],
    /// What it means, or why it comes.
    pub(crate) meaning: &'static str,
    /// What it leaves, or what to do.
    pub(crate) advice: &'static str,
}

static FAULTS: [Message; 8] = [
    Message {
        texts: &["FAULT COLUMN"],
        meaning: "Column 1 is neither blank nor the start of a name of at most 63 letters and digits, \
                followed by a blank.",
        advice: "Begin the statement after a blank; begin a comment with an asterisk.",
    },
    Message {
        texts: &["FAULT CONTINUATION"],
        meaning: "Columns 1 to 15 of a line that continues a statement are not blank; or operands that \
                end with a comma do not continue in column 16; or there are more than nine such \
                lines; or the script ends where one should follow. The lines that follow are dropped \
                as long as the line before has a character in column 72.",
        advice: "Usually a remark is too long, with its last character in column 72; the next line \
                was taken for its continuation, and was not carried out. See Continuation lines in \
                STATEMENTS.md.",
    },
    Message {
        texts: &["FAULT OPERATION"],
        meaning: "The operation is missing or unknown.",
        advice: "See STATEMENTS.md; an operation begins after a blank.",
    },
    Message {
        texts: &["FAULT OPERAND"],
        meaning: "An operand is empty, is not the statement's, or has an apostrophe or a parenthesis \
                that is not closed.",
        advice: "The usual cause is a comma too many, or a line that is not continued.",
    },
    Message {
        texts: &["FAULT REPEATED"],
        meaning: "A keyword is written twice.",
        advice: "Write it once.",
    },
    Message {
        texts: &["FAULT MISSING"],
        meaning: "A required operand is missing.",
        advice: "STORAGE OBTAIN needs LENGTH, GETMAIN LV (EC and EU A too), STORAGE RELEASE LENGTH \
                and ADDR or only SP, FREEMAIN LV and A or only SP, CPOOL BUILD PCELLCT, CSIZE and \
                CPID, CPOOL GET and DELETE CPID, CPOOL FREE CPID and CELL, POKE and PEEK two \
                operands, DETACH and RUN a task, BACK and FORWARD a number.",
    },
    Message {
        texts: &["FAULT VALUE"],
        meaning: "A value is not of its kind, for example 8K, P+8, a number above 4294967295, register \
                13 for ADDR or CELL, a number or a register for CPID, an HDR without apostrophes or \
                of more than 24 characters, an odd number of digits in POKE, or more than 256 bytes; \
                or a pair instead of one length, or one length where VRC and VRU need a pair.",
        advice: "See Values in STATEMENTS.md.",
    },
    Message {
        texts: &["FAULT LEFTOUT"],
        meaning: "The bench leaves out the form, the keyword, or the kind of value; STATEMENTS.md in \
                STATEMENTS.md lists them.",
        advice: "Do without it.",
    },
];

/// The messages on what is wrong with a statement.
pub(crate) fn faults() -> &'static [Message] {
    &FAULTS
}

static REFUSALS: [Message; 4] = [
    Message {
        texts: &["REFUSED NAME"],
        meaning: "A value is an undefined name: no accepted statement stored in it, or that statement \
                is undone.",
        advice: "Define it by ADDR of a STORAGE OBTAIN, A of a GETMAIN EU or CELL of a CPOOL GET.",
    },
    Message {
        texts: &["REFUSED KEPT=3"],
        meaning: "BACK is by more changes than are kept, whose number is printed.",
        advice: "Go back by at most that number. A forgotten change cannot be undone.",
    },
    Message {
        texts: &["REFUSED UNDONE=0"],
        meaning: "FORWARD is by more changes than are undone, whose number is printed.",
        advice: "Go forward by at most that number. A statement accepted after the BACK discards what \
                was undone.",
    },
    Message {
        texts: &["REFUSED MEMORY"],
        meaning: "The statement would have been accepted, but memory ran out.",
        advice: "Give the program more memory, or continue: nothing changed. Memory that it did get \
                is kept for later statements. So after a large refused statement a small one can be \
                refused too, though by itself it would be accepted.",
    },
];

/// The messages on refusals that have no completion code.
pub(crate) fn refusals() -> &'static [Message] {
    &REFUSALS
}

static USER_CODES: [Message; 13] = [
    Message {
        texts: &["U3007"],
        meaning: "Subpools 131 and 132 need operands that the bench lacks.",
        advice: "Take a number from 0 to 127.",
    },
    Message {
        texts: &["U3001"],
        meaning: "The length is zero; or of two bounds the minimum is zero or above the maximum.",
        advice: "Write a length of at least 1, the maximum first; a register or name as a length may \
                hold 0.",
    },
    Message {
        texts: &["U3013"],
        meaning: "ADDR, A of GETMAIN, or CELL of CPOOL GET is a new name, and 1,024 are already \
                defined. ATTACH: there are 64 tasks. CPOOL BUILD: there are 256 cell pools.",
        advice: "Use a name again, or a register; end a task; delete a cell pool.",
    },
    Message {
        texts: &["U3003"],
        meaning: "The area is not in the subpool: the task has none of this number, or a byte of the \
                area is outside both regions or in a page of another subpool.",
        advice: "Name the subpool that the area was obtained from.",
    },
    Message {
        texts: &["U3004"],
        meaning: "Subpool 0 cannot be released whole.",
        advice: "Release its areas one by one.",
    },
    Message {
        texts: &["U3005"],
        meaning: "The task does not own the subpool to be released whole, or given away by ATTACH.",
        advice: "Let its owner do it; a shared subpool can be shared further.",
    },
    Message {
        texts: &["U3006"],
        meaning: "The area has storage of a cell pool's extent, with its cells free or in use.",
        advice: "Use CPOOL FREE for a cell, CPOOL DELETE for all.",
    },
    Message {
        texts: &["U3008"],
        meaning: "There is no such task; or DETACH names one that another task attached; or ENDTASK is \
                asked of task 1.",
        advice: "See the map for tasks and their parents; RUN turns to the parent.",
    },
    Message {
        texts: &["U3009"],
        meaning: "A cell pool has this name already, perhaps in a subpool that the task does not see.",
        advice: "Take another name, or delete that cell pool first.",
    },
    Message {
        texts: &["U3010"],
        meaning: "There is no cell pool of this name, or the task does not see its subpool: it was \
                deleted, its subpool was released whole or given away, or its owner ended.",
        advice: "See the map for the cell pools and the owners of their subpools.",
    },
    Message {
        texts: &["U3011"],
        meaning: "CPOOL FREE of an address that is no cell's of this cell pool, or of a free cell.",
        advice: "vsm-explain who FILE ADDRESS says which statement freed it; an address within a cell \
                will not do.",
    },
    Message {
        texts: &["U3012"],
        meaning: "CPOOL BUILD: a cell size that is no multiple of 4 from 4 to 4096, or a count not \
                from 1 to 4096.",
        advice: "Round the size up; a register or name may hold 0.",
    },
    Message {
        texts: &["U3014"],
        meaning: "A number that ATTACH gives or shares is 0, above 127, or named twice.",
        advice: "Use SZERO for subpool 0; check the bytes of the list.",
    },
];

/// The messages on user completion codes.
pub(crate) fn user_codes() -> &'static [Message] {
    &USER_CODES
}

static SYSTEM_CODES: [Message; 6] = [
    Message {
        texts: &["SB78", "SB0A", "SB04", "SB05"],
        meaning: "The subpool number is above 127, in a STORAGE, CPOOL BUILD, RC, RU, VRC or VRU, in \
                form R, in GETMAIN EC or EU, in FREEMAIN E, EC or EU.",
        advice: "Take a number from 0 to 127.",
    },
    Message {
        texts: &["S878", "S80A", "S804"],
        meaning: "There is no room: no free area of the subpool and no run of unassigned pages is long \
                enough. S878: a STORAGE, RU or VRU, or the extent of a CPOOL BUILD, or of a CPOOL \
                GET that finds no free cell; S80A: form R; S804: GETMAIN EU.",
        advice: "Release something, ask for less, use a conditional form, or free cells. Areas of \
                other subpools, and free storage in their pages, cannot be used.",
    },
    Message {
        texts: &["S978", "S90A", "S905"],
        meaning: "The address of a release is no multiple of 8.",
        advice: "Release from a doubleword boundary.",
    },
    Message {
        texts: &["SA78", "SA0A", "SA05"],
        meaning: "A part of the area is not taken: it is free in the subpool, or in an unassigned \
                page.",
        advice: "vsm-explain who FILE ADDRESS says which statement released it; a length is rounded \
                up.",
    },
    Message {
        texts: &["SA03"],
        meaning: "ENDTASK of a task that has a subtask.",
        advice: "End its subtasks first.",
    },
    Message {
        texts: &["S0C4"],
        meaning: "A byte of a POKE or PEEK, or of a list of ATTACH, is in an unassigned page, or past \
                X'FFFFFFFF'.",
        advice: "Check the address: a register may hold 0. A page leaves once nothing in it is taken.",
    },
];

/// The messages on system completion codes.
pub(crate) fn system_codes() -> &'static [Message] {
    &SYSTEM_CODES
}

static ANSWERS: [Message; 11] = [
    Message {
        texts: &["RC=0 A=00006000 L=00000010"],
        meaning: "STORAGE OBTAIN, GETMAIN: the area was obtained. A is its address, L its length in \
                bytes, rounded up to a multiple of 8, both in hexadecimal.",
        advice: "Register 15 is 0; register 1, and the name or register that ADDR or A names, have \
                the address; register 0 has the length if two bounds were asked for. The change is \
                kept.",
    },
    Message {
        texts: &["RC=0 A=00006000 L=00000020"],
        meaning: "CPOOL BUILD: the cell pool was made. A is the address of its first extent, L its \
                length in bytes, rounded up to a multiple of 8.",
        advice: "Only register 15 changes, to 0. The change is kept.",
    },
    Message {
        texts: &["RC=0 A=00006010"],
        meaning: "CPOOL GET: the cell is at this address.",
        advice: "Register 15 is 0; register 1, and the name or register that CELL names, have the \
                address. The change is kept.",
    },
    Message {
        texts: &["RC=0"],
        meaning: "STORAGE RELEASE, FREEMAIN: the area, or the whole subpool, was released. DETACH: the \
                task ended, and all below it. CPOOL FREE: the cell is free. CPOOL DELETE: the cell \
                pool is gone, and its extents are released.",
        advice: "Register 15 is 0. The change is kept.",
    },
    Message {
        texts: &["RC=4"],
        meaning: "STORAGE with COND=YES, GETMAIN RC, VRC and EC, FREEMAIN RC and EC: there was no room \
                for the area, or it could not be released. CPOOL GET with C or COND: no cell is \
                free.",
        advice: "Only register 15 changed, to 4: no subpool or extent of cells is made, and no name \
                defined. The change is kept, and what was undone is gone.",
    },
    Message {
        texts: &["RC=0 T=2"],
        meaning: "ATTACH: the task was made; T is its number.",
        advice: "Register 15 is 0, register 1 has the number. The change is kept.",
    },
    Message {
        texts: &["T=2"],
        meaning: "RUN, ENDTASK: the task that now makes the requests.",
        advice: "No register. The change is kept.",
    },
    Message {
        texts: &["OK"],
        meaning: "POKE: the bytes are stored.",
        advice: "The bytes; no register. The change is kept.",
    },
    Message {
        texts: &["D=C1C20000"],
        meaning: "PEEK: the bytes, two hexadecimal digits each, from 1 to 256 of them.",
        advice: "Nothing has changed.",
    },
    Message {
        texts: &["MAP"],
        meaning: "MAP: the lines of the map follow.",
        advice: "Nothing has changed.",
    },
    Message {
        texts: &["KEPT=5"],
        meaning: "BACK or FORWARD: the step was made; this number of changes is kept now, in decimal.",
        advice: "The state that these changes lead to.",
    },
];

/// The messages on what accepted statements are answered.
pub(crate) fn answers() -> &'static [Message] {
    &ANSWERS
}
