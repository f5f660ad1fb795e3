use crate::Case;

pub const CASES: [Case; 16] = [
    Case {
        title: "one input",
        rows: 2,
        text: b"INPUT(a)",
    },
    Case {
        title: "three inputs and two gates",
        rows: 8,
        text: b"INPUT(a)\nINPUT(b)\nINPUT(c)\nm = NAND(a, b)\nk = OR(m, c)\nOUTPUT(k)\n",
    },
    Case {
        title: "output before its line",
        rows: 2,
        text: b"OUTPUT(b)\nINPUT(a)\nb = BUFF(a)\nOUTPUT(b)",
    },
    Case {
        title: "carriage returns",
        rows: 4,
        text: b"INPUT(a)\r\n\r\nb = NOT(a)\r\nOUTPUT(b)\r\n",
    },
    Case {
        title: "blanks around tokens",
        rows: 4,
        text: b"\t INPUT ( a )\r \n x=AND(a,a)  \n y\t=\tXNOR ( x ,a )",
    },
    Case {
        title: "comments",
        rows: 1,
        text: b"# head\nINPUT(a) # one\n#OUTPUT(z)\nOUTPUT(a)#",
    },
    Case {
        title: "comment at the text's end",
        rows: 1,
        text: b"INPUT(a)\n# (((( \xff no end",
    },
    Case {
        title: "word of 16 bytes",
        rows: 1,
        text: b"INPUT(abcdefghij_12345)\nOUTPUT(abcdefghij_12345)",
    },
    Case {
        title: "eight pins",
        rows: 2,
        text: b"INPUT(a)\nx = XOR(a,a,a,a,a,a,a,a)",
    },
    Case {
        title: "keywords as names",
        rows: 3,
        text: b"INPUT(INPUT)\nAND = OR(INPUT, INPUT)\nOUTPUT(AND)",
    },
    Case {
        title: "digits and underscores",
        rows: 3,
        text: b"INPUT(1)\n_ = NOT(1)\n2a=NOR(_,1)\nOUTPUT(1)\nOUTPUT(2a)\nOUTPUT(1)",
    },
    Case {
        title: "names in two cases",
        rows: 2,
        text: b"INPUT(a)\nINPUT(A)",
    },
    Case {
        title: "names that begin alike",
        rows: 2,
        text: b"INPUT(ab)\nINPUT(abc)\nOUTPUT(ab)",
    },
    Case {
        title: "input after a gate",
        rows: 3,
        text: b"INPUT(a)\nb = NOT(a)\nINPUT(c)\n",
    },
    Case {
        title: "input marked as output",
        rows: 5,
        text: b"OUTPUT(a)\nINPUT(b)\nINPUT(a)\n\n\n",
    },
    Case {
        title: "one pin twice",
        rows: 2,
        text: b"INPUT(a)\nb = XOR(a, a)\nOUTPUT(b)\nOUTPUT(b)",
    },
];
