//! `verify` of an article that is cut behind each of its bytes, or that has one line left out, doubled or replaced.
use crate::inputs::SMALLEST;
use crate::tables::{Given, Table, holds};

// With what comes where nothing is exported, and of the whole article.
const HEAD: &str = r#"
[usual]
words = ["bridge", "verify", "a"]
pieces = [1, 4096]

[usual.texts]
nothing = ""
nothing_note = '''
articles 1
assumptions 0
exports 0
declarations 2
bounds 16216358912
verified
'''
theorems_note = '''
articles 1
assumptions 0
exports 1
declarations 4
bounds 16240151168
verified
'''

[[test]]
name = "article"

"#;

// The parts of each module.
const FRONT: &str = r#""$prelude", "$lemmas", "#;

const CUT: Table<'_> = Table {
    head: HEAD,
    given: Given::Cut("a", SMALLEST),
    front: FRONT,
    rows: r#"
0 2 0 nothing
3 8 1 article 1 line 2: BadLine (1)
9 10 0 nothing
11 12 1 article 1 line 3: BadLine (1)
13 14 0 nothing
15 19 1 article 1 line 4: BadLine (1)
20 21 0 nothing
22 26 1 article 1 line 5: BadLine (1)
27 28 0 nothing
29 30 1 article 1 line 6: BadLine (1)
31 32 0 nothing
33 37 1 article 1 line 7: BadLine (1)
38 41 0 nothing
42 43 1 article 1 line 9: BadLine (1)
44 45 0 nothing
46 47 1 article 1 line 10: BadLine (1)
48 49 0 nothing
50 51 1 article 1 line 11: BadLine (1)
52 52 1 article 1 line 11: WrongKind (3)
53 55 1 article 1 line 11: BadLine (1)
56 59 0 nothing
60 61 1 article 1 line 13: BadLine (1)
62 63 0 nothing
64 65 1 article 1 line 14: BadLine (1)
66 66 1 article 1 line 14: WrongKind (3)
67 68 0 nothing
69 70 1 article 1 line 15: BadLine (1)
71 72 0 nothing
73 74 1 article 1 line 16: BadLine (1)
75 76 0 nothing
77 79 1 article 1 line 17: BadLine (1)
80 80 1 article 1 line 17: WrongKind (3)
81 82 0 nothing
83 85 1 article 1 line 18: BadLine (1)
86 87 0 nothing
88 92 1 article 1 line 19: BadLine (1)
93 96 0 nothing
97 98 1 article 1 line 21: BadLine (1)
99 100 0 nothing
101 103 1 article 1 line 22: BadLine (1)
104 105 0 nothing
106 110 1 article 1 line 23: BadLine (1)
111 114 0 nothing
115 116 1 article 1 line 25: BadLine (1)
117 120 0 nothing
121 122 1 article 1 line 27: BadLine (1)
123 124 0 nothing
125 126 1 article 1 line 28: BadLine (1)
127 128 0 nothing
129 131 1 article 1 line 29: BadLine (1)
132 133 0 nothing
134 136 1 article 1 line 30: BadLine (1)
137 138 0 nothing
139 143 1 article 1 line 31: BadLine (1)
144 145 0 nothing
146 147 1 article 1 line 32: BadLine (1)
148 149 0 nothing
150 152 1 article 1 line 33: BadLine (1)
153 154 0 nothing
155 157 1 article 1 line 34: BadLine (1)
158 159 0 nothing
160 164 1 article 1 line 35: BadLine (1)
165 166 0 nothing
167 169 1 article 1 line 36: BadLine (1)
170 171 1 article 1 line 36: WrongKind (3)
172 174 1 article 1 line 36: BadLine (1)
175 178 0 nothing
179 180 1 article 1 line 38: BadLine (1)
181 182 0 nothing
183 188 1 article 1 line 39: BadLine (1)
189 192 0 nothing
193 194 1 article 1 line 41: BadLine (1)
195 196 0 nothing
197 202 1 article 1 line 42: BadLine (1)
203 204 0 nothing
205 206 1 article 1 line 43: BadLine (1)
207 208 0 theorems
"#,
};

const LEFT_OUT: Table<'_> = Table {
    head: HEAD,
    given: Given::Replaced(SMALLEST, ""),
    front: FRONT,
    rows: r#"
1 1 1 article 1 line #: VersionPlace (5)
2 2 0 theorems
3 4 1 article 1 line 9: StackShort (2)
5 5 1 article 1 line 6: WrongKind (3)
6 6 1 article 1 line #: WrongKind (3)
7 7 1 article 1 line 9: WrongKind (3)
8 10 1 article 1 line #: WrongKind (3)
11 11 1 article 1 line 13: WrongKind (3)
12 13 1 article 1 line #: WrongKind (3)
14 15 1 article 1 line 42: WrongKind (3)
16 16 1 article 1 line #: WrongKind (3)
17 17 1 article 1 line 35: WrongKind (3)
18 18 1 article 1 line #: WrongKind (3)
19 19 1 article 1 line 34: WrongKind (3)
20 20 1 article 1 line #: WrongKind (3)
21 21 1 article 1 line 34: WrongKind (3)
22 22 1 article 1 line #: WrongKind (3)
23 23 1 article 1 line 30: WrongKind (3)
24 24 1 article 1 line #: WrongKind (3)
25 25 1 article 1 line 30: WrongKind (3)
26 26 1 article 1 line #: WrongKind (3)
27 27 1 article 1 line 30: WrongKind (3)
28 28 1 article 1 line #: WrongKind (3)
29 29 1 article 1 line 30: WrongKind (3)
30 30 1 article 1 line #: WrongKind (3)
31 31 1 article 1 line 34: WrongKind (3)
32 32 1 article 1 line #: WrongKind (3)
33 33 1 article 1 line 34: WrongKind (3)
34 35 1 article 1 line #: WrongKind (3)
36 36 1 article 1 line 38: WrongKind (3)
37 38 1 article 1 line #: WrongKind (3)
39 39 1 article 1 line 41: TypeMismatch (7)
40 42 1 article 1 line #: WrongKind (3)
43 43 0 nothing
"#,
};

const DOUBLED: Table<'_> = Table {
    head: HEAD,
    given: Given::Doubled(SMALLEST),
    front: FRONT,
    rows: r#"
1 2 1 article 1 line 3: VersionPlace (5)
3 4 0 theorems
5 5 1 article 1 line 6: WrongKind (3)
6 7 1 article 1 line 8: WrongKind (3)
8 8 1 article 1 line 11: WrongKind (3)
9 9 1 article 1 line 10: WrongKind (3)
10 10 1 article 1 line 11: WrongKind (3)
11 11 1 article 1 line 12: WrongKind (3)
12 12 1 article 1 line 15: WrongKind (3)
13 13 1 article 1 line 14: WrongKind (3)
14 14 1 article 1 line 15: WrongKind (3)
15 16 1 article 1 line 44: WrongKind (3)
17 17 1 article 1 line 18: WrongKind (3)
18 18 1 article 1 line 37: WrongKind (3)
19 19 1 article 1 line 20: WrongKind (3)
20 20 1 article 1 line 36: WrongKind (3)
21 21 1 article 1 line 22: WrongKind (3)
22 22 1 article 1 line 36: WrongKind (3)
23 23 1 article 1 line 24: WrongKind (3)
24 24 1 article 1 line 32: WrongKind (3)
25 25 1 article 1 line 26: WrongKind (3)
26 26 1 article 1 line 32: WrongKind (3)
27 27 1 article 1 line 28: WrongKind (3)
28 31 1 article 1 line 32: WrongKind (3)
32 35 1 article 1 line 36: WrongKind (3)
36 36 1 article 1 line 37: WrongKind (3)
37 37 1 article 1 line 40: WrongKind (3)
38 38 1 article 1 line 39: WrongKind (3)
39 39 1 article 1 line 40: WrongKind (3)
40 40 1 article 1 line 43: WrongKind (3)
41 41 1 article 1 line 42: WrongKind (3)
42 42 1 article 1 line 43: WrongKind (3)
43 43 1 article 1 line 44: StackShort (2)
"#,
};

const CONS: Table<'_> = Table {
    head: HEAD,
    given: Given::Replaced(SMALLEST, "cons "),
    front: FRONT,
    rows: r#"
1 1 1 article 1 line #: StackShort (2)
2 2 1 article 1 line #: WrongKind (3)
3 3 1 article 1 line #: StackShort (2)
4 6 1 article 1 line #: WrongKind (3)
7 7 1 article 1 line 10: WrongKind (3)
8 15 1 article 1 line #: WrongKind (3)
16 16 1 article 1 line 17: WrongKind (3)
17 28 1 article 1 line #: WrongKind (3)
29 30 0 theorems
31 31 1 article 1 line 35: WrongKind (3)
32 32 1 article 1 line #: WrongKind (3)
33 34 0 theorems
35 35 1 article 1 line 36: WrongKind (3)
36 43 1 article 1 line #: WrongKind (3)
"#,
};

const HD_TL: Table<'_> = Table {
    head: HEAD,
    given: Given::Replaced(SMALLEST, "hdTl "),
    front: FRONT,
    rows: r#"
1 1 1 article 1 line #: StackShort (2)
2 2 1 article 1 line #: WrongKind (3)
3 3 1 article 1 line #: StackShort (2)
4 6 1 article 1 line #: WrongKind (3)
7 7 1 article 1 line #: EmptyList (27)
8 15 1 article 1 line #: WrongKind (3)
16 16 1 article 1 line #: EmptyList (27)
17 28 1 article 1 line #: WrongKind (3)
29 29 1 article 1 line #: EmptyList (27)
30 30 1 article 1 line 31: WrongKind (3)
31 31 1 article 1 line 35: WrongKind (3)
32 32 1 article 1 line #: WrongKind (3)
33 33 1 article 1 line #: EmptyList (27)
34 34 1 article 1 line 35: WrongKind (3)
35 35 1 article 1 line 36: WrongKind (3)
36 43 1 article 1 line #: WrongKind (3)
"#,
};

const THM: Table<'_> = Table {
    head: HEAD,
    given: Given::Replaced(SMALLEST, "thm "),
    front: FRONT,
    rows: r#"
1 1 1 article 1 line #: StackShort (2)
2 2 1 article 1 line #: WrongKind (3)
3 3 1 article 1 line #: StackShort (2)
4 11 1 article 1 line #: WrongKind (3)
12 12 1 article 1 line #: StackShort (2)
13 13 1 article 1 line #: WrongKind (3)
14 14 1 article 1 line #: StackShort (2)
15 36 1 article 1 line #: WrongKind (3)
37 37 1 article 1 line #: NotBool (6)
38 39 1 article 1 line #: WrongKind (3)
40 40 1 article 1 line #: NotBool (6)
41 42 1 article 1 line #: WrongKind (3)
43 43 0 theorems
"#,
};

const SEVEN: Table<'_> = Table {
    head: HEAD,
    given: Given::Replaced(SMALLEST, "7 "),
    front: FRONT,
    rows: r#"
1 1 1 article 1 line 2: VersionPlace (5)
2 2 0 theorems
3 3 1 article 1 line 10: WrongKind (3)
4 4 1 article 1 line 5: WrongKind (3)
5 6 1 article 1 line 7: WrongKind (3)
7 7 1 article 1 line 10: WrongKind (3)
8 8 1 article 1 line 21: NoSuchKey (4)
9 9 1 article 1 line 10: WrongKind (3)
10 10 1 article 1 line 11: WrongKind (3)
11 11 1 article 1 line 14: WrongKind (3)
12 12 1 article 1 line 38: NoSuchKey (4)
13 13 1 article 1 line 14: WrongKind (3)
14 15 1 article 1 line 43: WrongKind (3)
16 16 1 article 1 line 17: WrongKind (3)
17 17 1 article 1 line 36: WrongKind (3)
18 18 1 article 1 line 19: WrongKind (3)
19 19 1 article 1 line 35: WrongKind (3)
20 20 1 article 1 line 21: NoSuchKey (4)
21 21 1 article 1 line 35: WrongKind (3)
22 22 1 article 1 line 23: WrongKind (3)
23 23 1 article 1 line 31: WrongKind (3)
24 24 1 article 1 line 25: NoSuchKey (4)
25 25 1 article 1 line 31: WrongKind (3)
26 26 1 article 1 line 27: NoSuchKey (4)
27 27 1 article 1 line 31: WrongKind (3)
28 28 1 article 1 line 29: WrongKind (3)
29 29 1 article 1 line 30: WrongKind (3)
30 30 1 article 1 line 31: WrongKind (3)
31 31 1 article 1 line 35: WrongKind (3)
32 32 1 article 1 line 33: WrongKind (3)
33 33 1 article 1 line 34: WrongKind (3)
34 34 1 article 1 line 35: WrongKind (3)
35 35 1 article 1 line 36: WrongKind (3)
36 36 1 article 1 line 39: WrongKind (3)
37 37 1 article 1 line 38: NoSuchKey (4)
38 38 1 article 1 line 39: WrongKind (3)
39 39 1 article 1 line 42: WrongKind (3)
40 40 1 article 1 line 41: NoSuchKey (4)
41 41 1 article 1 line 42: WrongKind (3)
42 42 1 article 1 line 43: WrongKind (3)
43 43 0 nothing
"#,
};

const QUOTE: Table<'_> = Table {
    head: HEAD,
    given: Given::Replaced(SMALLEST, "\" "),
    front: FRONT,
    rows: r#"
1 43 1 article 1 line #: BadLine (1)
"#,
};

#[test]
fn cut(rt: HostRuntime) {
    assert!(rt; holds(&rt, &CUT));
}

// Whether the tables hold of lines that are left out or doubled.
fn left_out_or_doubled(rt: &HostRuntime) -> bool {
    holds(rt, &LEFT_OUT) && holds(rt, &DOUBLED)
}

#[test]
fn lines_left_out_or_doubled(rt: HostRuntime) {
    assert!(rt; left_out_or_doubled(&rt));
}

// Whether the tables hold of lines that are replaced.
fn replaced(rt: &HostRuntime) -> bool {
    holds(rt, &CONS)
        && holds(rt, &HD_TL)
        && holds(rt, &THM)
        && holds(rt, &SEVEN)
        && holds(rt, &QUOTE)
}

#[test]
fn lines_replaced(rt: HostRuntime) {
    assert!(rt; replaced(&rt));
}
