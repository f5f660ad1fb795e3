use crate::Case;

pub const FORM: [Case; 18] = [
    Case {
        title: "bracket first",
        rows: 2,
        text: b"(",
    },
    Case {
        title: "two words",
        rows: 2,
        text: b"INPUT a",
    },
    Case {
        title: "no closing bracket",
        rows: 2,
        text: b"INPUT(a",
    },
    Case {
        title: "comment inside a statement",
        rows: 2,
        text: b"INPUT(a #)\n",
    },
    Case {
        title: "line end inside a statement",
        rows: 2,
        text: b"INPUT(\na)",
    },
    Case {
        title: "nothing declared",
        rows: 2,
        text: b"INPUT()",
    },
    Case {
        title: "no pin",
        rows: 2,
        text: b"INPUT(a)\nx = AND()",
    },
    Case {
        title: "comma before the bracket",
        rows: 2,
        text: b"INPUT(a)\nx = AND(a,)",
    },
    Case {
        title: "more after the statement",
        rows: 2,
        text: b"INPUT(a) b",
    },
    Case {
        title: "byte above 127",
        rows: 2,
        text: b"INPUT(\xe9)",
    },
    Case {
        title: "zero byte",
        rows: 2,
        text: b" \0",
    },
    Case {
        title: "two equals signs",
        rows: 2,
        text: b"x == NOT(a)",
    },
    Case {
        title: "word alone",
        rows: 2,
        text: b"INPUT\r\n",
    },
    Case {
        title: "carriage return in a word",
        rows: 2,
        text: b"INP\rUT(a)",
    },
    Case {
        title: "no bracket after the kind",
        rows: 2,
        text: b"x = NOT a",
    },
    Case {
        title: "form before keyword",
        rows: 2,
        text: b"WIRE(a",
    },
    Case {
        title: "form before length",
        rows: 2,
        text: b"INPUT abcdefghijklmnopq",
    },
    Case {
        title: "comma in a declaration",
        rows: 2,
        text: b"INPUT(a, b)",
    },
];

pub const WORDS: [Case; 13] = [
    Case {
        title: "word of 17 bytes",
        rows: 2,
        text: b"INPUT(abcdefghijklmnopq)",
    },
    Case {
        title: "keyword of 17 bytes",
        rows: 2,
        text: b"INPUTINPUTINPUTIN(a",
    },
    Case {
        title: "kind of 17 bytes",
        rows: 2,
        text: b"x = ABCDEFGHIJKLMNOPQ(a)",
    },
    Case {
        title: "pin of 17 bytes",
        rows: 2,
        text: b"INPUT(a)\nx = AND(a, abcdefghijklmnopq)",
    },
    Case {
        title: "tenth pin of 17 bytes",
        rows: 2,
        text: b"x = AND(a,a,a,a,a,a,a,a,a,abcdefghijklmnopq)",
    },
    Case {
        title: "small letters",
        rows: 2,
        text: b"input(a)",
    },
    Case {
        title: "unknown declaration",
        rows: 2,
        text: b"  WIRE(a)",
    },
    Case {
        title: "AND declares nothing",
        rows: 2,
        text: b"INPUT(a)\nAND(a)",
    },
    Case {
        title: "unknown kind",
        rows: 2,
        text: b"INPUT(a)\nx = DFF(a)",
    },
    Case {
        title: "INPUT is no kind",
        rows: 2,
        text: b"INPUT(a)\nx = INPUT(a)",
    },
    Case {
        title: "kind in small letters",
        rows: 2,
        text: b"x = and(a)",
    },
    Case {
        title: "kind with a letter more",
        rows: 2,
        text: b"x = ANDS(a, a)",
    },
    Case {
        title: "kind with a letter less",
        rows: 2,
        text: b"x = BUF(a)",
    },
];

pub const GATES: [Case; 16] = [
    Case {
        title: "one pin to an AND",
        rows: 2,
        text: b"INPUT(a)\nx = AND(a)",
    },
    Case {
        title: "two pins to a NOT",
        rows: 2,
        text: b"INPUT(a)\nx = NOT(a, a)",
    },
    Case {
        title: "nine pins",
        rows: 2,
        text: b"INPUT(a)\nx = OR(a,a,a,a,a,a,a,a,a)",
    },
    Case {
        title: "twelve pins",
        rows: 2,
        text: b"INPUT(a)\nx = OR(a,a,a,a,a,a,a,a,a,a,a,a) # many",
    },
    Case {
        title: "pin count before names",
        rows: 2,
        text: b"x = BUFF(q, q)",
    },
    Case {
        title: "input twice",
        rows: 2,
        text: b"INPUT(a)\nINPUT(a)",
    },
    Case {
        title: "gate on an input",
        rows: 2,
        text: b"INPUT(a)\na = NOT(a)",
    },
    Case {
        title: "gate twice",
        rows: 3,
        text: b"INPUT(a)\nb = NOT(a)\nb = BUFF(a)",
    },
    Case {
        title: "input on a gate",
        rows: 3,
        text: b"INPUT(a)\nb = NOT(a)\nINPUT(b)",
    },
    Case {
        title: "redefined before an undefined pin",
        rows: 2,
        text: b"INPUT(a)\na = NOT(q)",
    },
    Case {
        title: "redefined before the next line's form",
        rows: 2,
        text: b"INPUT(a)\nINPUT(a)\n(",
    },
    Case {
        title: "gate on itself",
        rows: 2,
        text: b"INPUT(a)\nb = NOT(b)",
    },
    Case {
        title: "pin defined later",
        rows: 3,
        text: b"INPUT(a)\nb = NOT(c)\nc = NOT(a)",
    },
    Case {
        title: "second pin undefined",
        rows: 2,
        text: b"INPUT(a)\nb = AND(a, q, r)",
    },
    Case {
        title: "part of a name",
        rows: 2,
        text: b"INPUT(ab)\nx = NOT(a)",
    },
    Case {
        title: "pin in small letters",
        rows: 2,
        text: b"INPUT(A)\nx = AND(A, a)",
    },
];

pub const WHOLE: [Case; 16] = [
    Case {
        title: "output of nothing",
        rows: 2,
        text: b"INPUT(a)\nOUTPUT(b)",
    },
    Case {
        title: "first of two outputs",
        rows: 2,
        text: b"OUTPUT(x)\nINPUT(a)\nOUTPUT(y)",
    },
    Case {
        title: "output before no input",
        rows: 2,
        text: b"OUTPUT(x)",
    },
    Case {
        title: "second output undefined",
        rows: 3,
        text: b"INPUT(a)\nOUTPUT(a)\nOUTPUT(z)",
    },
    Case {
        title: "later line before an output",
        rows: 2,
        text: b"OUTPUT(x)\nINPUT(a)\nINPUT(a)",
    },
    Case {
        title: "empty text",
        rows: 2,
        text: b"",
    },
    Case {
        title: "blank lines",
        rows: 2,
        text: b"\n\r\n \t",
    },
    Case {
        title: "comment alone",
        rows: 2,
        text: b"# INPUT(a)",
    },
    Case {
        title: "no rows for an input",
        rows: 0,
        text: b"INPUT(a)",
    },
    Case {
        title: "no row for a gate",
        rows: 1,
        text: b"INPUT(a)\nb = NOT(a)\n",
    },
    Case {
        title: "no row for the third input",
        rows: 2,
        text: b"INPUT(a)\nINPUT(b)\nINPUT(c)",
    },
    Case {
        title: "no row before the next line's form",
        rows: 0,
        text: b"INPUT(a)\n(",
    },
    Case {
        title: "no row before an output",
        rows: 0,
        text: b"OUTPUT(z)\nINPUT(a)",
    },
    Case {
        title: "redefined before no row",
        rows: 1,
        text: b"INPUT(a)\nINPUT(a)",
    },
    Case {
        title: "undefined pin before no row",
        rows: 1,
        text: b"INPUT(a)\nb = NOT(q)",
    },
    Case {
        title: "no rows and no lines",
        rows: 0,
        text: b"# none",
    },
];
