// Named texts that JSON's reader judges, each rule of RFC 8259, RFC 3629 and document 01 from both sides, and spellings that
// it compares. Writes a line for each; the file stdout has what the papers say of them. A case is a name and its texts, with
// the octet 1D between them and 1E behind: one literal for many cases, since each literal has its price in the proof.
#![tactic(auto)]

// RFC 8259 section 2: space, and a text is one value; document 01: that value is an object.
const SPACE: [u8; 339] = *b"\
    empty object\x1d{}\x1e\
    empty text\x1d\x1e\
    only space\x1d \t\n\r\x1e\
    the four kinds of space\x1d \t\n\r{ \t\n\r} \t\n\r\x1e\
    space around every sign\x1d { \"a\" : [ 1 , 2 ] , \"b\" : { } } \x1e\
    space in a number\x1d{\"a\":1 2}\x1e\
    space in a word\x1d{\"a\":tr ue}\x1e\
    vertical tab\x1d{\x0b}\x1e\
    form feed\x1d{\x0c}\x1e\
    NUL for space\x1d{\x00}\x1e\
    no-break space\x1d{\xc2\xa0}\x1e\
    byte order mark before\x1d\xef\xbb\xbf{}\x1e\
    byte order mark behind\x1d{}\xef\xbb\xbf\x1e\
    comment\x1d{/**/}\x1e";

// Sections 2 and 3: nothing but the object.
const WHOLE: [u8; 230] = *b"\
    top-level array\x1d[]\x1e\
    top-level string\x1d\"a\"\x1e\
    top-level number\x1d1\x1e\
    top-level true\x1dtrue\x1e\
    top-level false\x1dfalse\x1e\
    top-level null\x1dnull\x1e\
    two objects\x1d{}{}\x1e\
    number behind\x1d{} 1\x1e\
    comma behind\x1d{},\x1e\
    brace behind\x1d{}}\x1e\
    NUL behind\x1d{}\x00\x1e\
    object in an array\x1d[{}]\x1e";

// Section 4: the braces, the colon, the comma; names.
const OBJECTS: [u8; 135] = *b"\
    one member\x1d{\"a\":1}\x1e\
    two members\x1d{\"a\":1,\"b\":2}\x1e\
    object in an object\x1d{\"a\":{\"b\":1}}\x1e\
    name of no characters\x1d{\"\":1}\x1e\
    a name twice\x1d{\"a\":1,\"a\":2}\x1e";

// Section 4: what is nearly an object.
const NO_OBJECTS: [u8; 283] = *b"\
    no closing brace\x1d{\x1e\
    no closing brace behind a member\x1d{\"a\":1\x1e\
    no closing brace inside\x1d{\"a\":{}\x1e\
    no opening brace\x1d}\x1e\
    brace closed by a bracket\x1d{]\x1e\
    no colon\x1d{\"a\"1}\x1e\
    two colons\x1d{\"a\"::1}\x1e\
    equals sign for a colon\x1d{\"a\"=1}\x1e\
    name alone\x1d{\"a\"}\x1e\
    name and colon\x1d{\"a\":}\x1e\
    colon and value\x1d{:1}\x1e\
    value alone\x1d{1}\x1e";

// Section 4: commas stand between members.
const COMMAS: [u8; 314] = *b"\
    no comma\x1d{\"a\":1 \"b\":2}\x1e\
    comma behind the last member\x1d{\"a\":1,}\x1e\
    comma before the first member\x1d{,\"a\":1}\x1e\
    two commas\x1d{\"a\":1,,\"b\":2}\x1e\
    comma alone\x1d{,}\x1e\
    semicolon for a comma\x1d{\"a\":1;\"b\":2}\x1e\
    name without quotation marks\x1d{a:1}\x1e\
    name in apostrophes\x1d{'a':1}\x1e\
    number for a name\x1d{1:1}\x1e\
    word for a name\x1d{null:1}\x1e\
    array for a name\x1d{[]:1}\x1e";

// Section 5: the brackets and the comma.
const ARRAYS: [u8; 493] = *b"\
    empty array\x1d{\"a\":[]}\x1e\
    one element\x1d{\"a\":[1]}\x1e\
    elements of every kind\x1d{\"a\":[{},[],\"\",0,true,false,null]}\x1e\
    array in an array\x1d{\"a\":[[]]}\x1e\
    no closing bracket\x1d{\"a\":[}\x1e\
    no closing bracket behind an element\x1d{\"a\":[1}\x1e\
    no opening bracket\x1d{\"a\":]}\x1e\
    bracket closed by a brace\x1d{\"a\":[1}]}\x1e\
    bracket that overlaps a brace\x1d{\"a\":[{]}}\x1e\
    comma behind the last element\x1d{\"a\":[1,]}\x1e\
    comma before the first element\x1d{\"a\":[,1]}\x1e\
    two commas in an array\x1d{\"a\":[1,,2]}\x1e\
    no comma in an array\x1d{\"a\":[1 2]}\x1e\
    member in an array\x1d{\"a\":[\"b\":1]}\x1e";

// Section 3: the three words, in lower case.
const WORDS: [u8; 205] = *b"\
    true\x1d{\"a\":true}\x1e\
    false\x1d{\"a\":false}\x1e\
    null\x1d{\"a\":null}\x1e\
    True\x1d{\"a\":True}\x1e\
    FALSE\x1d{\"a\":FALSE}\x1e\
    nul\x1d{\"a\":nul}\x1e\
    nulll\x1d{\"a\":nulll}\x1e\
    truefalse\x1d{\"a\":truefalse}\x1e\
    undefined\x1d{\"a\":undefined}\x1e\
    word at the end of the text\x1d{\"a\":tru\x1e";

// Section 6: numbers.
const NUMBERS: [u8; 239] = *b"\
    0\x1d{\"a\":0}\x1e\
    -0\x1d{\"a\":-0}\x1e\
    1\x1d{\"a\":1}\x1e\
    -1\x1d{\"a\":-1}\x1e\
    10\x1d{\"a\":10}\x1e\
    20 digits\x1d{\"a\":98765432109876543210}\x1e\
    0.5\x1d{\"a\":0.5}\x1e\
    -0.50\x1d{\"a\":-0.50}\x1e\
    1e1\x1d{\"a\":1e1}\x1e\
    1E1\x1d{\"a\":1E1}\x1e\
    1e+1\x1d{\"a\":1e+1}\x1e\
    1e-1\x1d{\"a\":1e-1}\x1e\
    0e0\x1d{\"a\":0e0}\x1e\
    1e01\x1d{\"a\":1e01}\x1e\
    1.5E+400\x1d{\"a\":1.5E+400}\x1e";

// Section 6: what is nearly a number.
const NO_NUMBERS: [u8; 295] = *b"\
    leading zero\x1d{\"a\":01}\x1e\
    leading zero behind a minus\x1d{\"a\":-01}\x1e\
    two zeros\x1d{\"a\":00}\x1e\
    bare minus\x1d{\"a\":-}\x1e\
    two minus signs\x1d{\"a\":--1}\x1e\
    plus sign\x1d{\"a\":+1}\x1e\
    no digit before the dot\x1d{\"a\":.5}\x1e\
    no digit between minus and dot\x1d{\"a\":-.5}\x1e\
    no digit behind the dot\x1d{\"a\":1.}\x1e\
    no digit between dot and exponent\x1d{\"a\":1.e1}\x1e";

// Section 6: what is nearly a fraction, an exponent or a word of other languages.
const NO_PARTS: [u8; 236] = *b"\
    two dots\x1d{\"a\":1.2.3}\x1e\
    no digit in the exponent\x1d{\"a\":1e}\x1e\
    no digit behind e+\x1d{\"a\":1e+}\x1e\
    no digit behind e-\x1d{\"a\":1e-}\x1e\
    fraction in the exponent\x1d{\"a\":1e1.5}\x1e\
    hexadecimal\x1d{\"a\":0x1}\x1e\
    NaN\x1d{\"a\":NaN}\x1e\
    Infinity\x1d{\"a\":Infinity}\x1e\
    -Infinity\x1d{\"a\":-Infinity}\x1e";

// Section 7: each escape.
const ESCAPES: [u8; 343] = *b"\
    escape \\\"\x1d{\"a\":\"\\\"\"}\x1e\
    escape \\\\\x1d{\"a\":\"\\\\\"}\x1e\
    escape \\/\x1d{\"a\":\"\\/\"}\x1e\
    escape \\b\x1d{\"a\":\"\\b\"}\x1e\
    escape \\f\x1d{\"a\":\"\\f\"}\x1e\
    escape \\n\x1d{\"a\":\"\\n\"}\x1e\
    escape \\r\x1d{\"a\":\"\\r\"}\x1e\
    escape \\t\x1d{\"a\":\"\\t\"}\x1e\
    escape \\u0041\x1d{\"a\":\"\\u0041\"}\x1e\
    escape \\u0000\x1d{\"a\":\"\\u0000\"}\x1e\
    escape \\u00e9\x1d{\"a\":\"\\u00e9\"}\x1e\
    escape \\u00E9\x1d{\"a\":\"\\u00E9\"}\x1e\
    escape \\uffff\x1d{\"a\":\"\\uffff\"}\x1e\
    escape in a name\x1d{\"\\u0061\":1}\x1e";

// Section 7: what is nearly an escape.
const NO_ESCAPES: [u8; 369] = *b"\
    escape \\a\x1d{\"a\":\"\\a\"}\x1e\
    escape \\v\x1d{\"a\":\"\\v\"}\x1e\
    escape \\0\x1d{\"a\":\"\\0\"}\x1e\
    escape \\'\x1d{\"a\":\"\\'\"}\x1e\
    escape \\N\x1d{\"a\":\"\\N\"}\x1e\
    escape \\x41\x1d{\"a\":\"\\x41\"}\x1e\
    escape \\U0041\x1d{\"a\":\"\\U0041\"}\x1e\
    backslash and LF\x1d{\"a\":\"\\\n\"}\x1e\
    backslash before the closing mark\x1d{\"a\":\"\\\"}\x1e\
    no digit behind \\u\x1d{\"a\":\"\\u\"}\x1e\
    three digits behind \\u\x1d{\"a\":\"\\u004\"}\x1e\
    g among the digits\x1d{\"a\":\"\\u00g0\"}\x1e\
    plus among the digits\x1d{\"a\":\"\\u+041\"}\x1e";

// Document 01: halves of a pair come in pairs (RFC 8259 sections 7 and 8.2).
const HALVES: [u8; 251] = *b"\
    pair\x1d{\"a\":\"\\ud834\\udd1e\"}\x1e\
    pair in capitals\x1d{\"a\":\"\\uD834\\uDD1E\"}\x1e\
    lowest pair\x1d{\"a\":\"\\ud800\\udc00\"}\x1e\
    highest pair\x1d{\"a\":\"\\udbff\\udfff\"}\x1e\
    two pairs\x1d{\"a\":\"\\ud834\\udd1e\\ud834\\udd1e\"}\x1e\
    below the first halves\x1d{\"a\":\"\\ud7ff\"}\x1e\
    above the second halves\x1d{\"a\":\"\\ue000\"}\x1e";

// A half without its other half directly beside it.
const LONE_HALVES: [u8; 652] = *b"\
    lowest first half alone\x1d{\"a\":\"\\ud800\"}\x1e\
    highest first half alone\x1d{\"a\":\"\\udbff\"}\x1e\
    lowest second half alone\x1d{\"a\":\"\\udc00\"}\x1e\
    highest second half alone\x1d{\"a\":\"\\udfff\"}\x1e\
    halves exchanged\x1d{\"a\":\"\\udd1e\\ud834\"}\x1e\
    two first halves\x1d{\"a\":\"\\ud834\\ud834\"}\x1e\
    two first halves and a second\x1d{\"a\":\"\\ud834\\ud834\\udd1e\"}\x1e\
    pair and a second half\x1d{\"a\":\"\\ud834\\udd1e\\udd1e\"}\x1e\
    letter behind a first half\x1d{\"a\":\"\\ud834a\"}\x1e\
    letter between halves\x1d{\"a\":\"\\ud834a\\udd1e\"}\x1e\
    escape behind a first half\x1d{\"a\":\"\\ud834\\n\"}\x1e\
    \\u0041 behind a first half\x1d{\"a\":\"\\ud834\\u0041\"}\x1e\
    \\ue000 behind a first half\x1d{\"a\":\"\\ud834\\ue000\"}\x1e\
    first half in a name\x1d{\"\\ud834\":1}\x1e\
    halves in two strings\x1d{\"a\":[\"\\ud834\",\"\\udd1e\"]}\x1e";

// Section 7: what may stand in a string as it is.
const STRINGS: [u8; 398] = *b"\
    empty string\x1d{\"a\":\"\"}\x1e\
    space in a string\x1d{\"a\":\" \"}\x1e\
    ! # [ ] in a string\x1d{\"a\":\"!#[]\"}\x1e\
    / in a string\x1d{\"a\":\"/\"}\x1e\
    signs in a string\x1d{\"a\":\"{}[]:,\"}\x1e\
    NUL in a string\x1d{\"a\":\"\x00\"}\x1e\
    BS in a string\x1d{\"a\":\"\x08\"}\x1e\
    tab in a string\x1d{\"a\":\"\t\"}\x1e\
    LF in a string\x1d{\"a\":\"\n\"}\x1e\
    CR in a string\x1d{\"a\":\"\r\"}\x1e\
    1F in a string\x1d{\"a\":\"\x1f\"}\x1e\
    LF in a name\x1d{\"\n\":1}\x1e\
    quotation mark in a string\x1d{\"a\":\"\"\"}\x1e\
    no closing mark\x1d{\"a\":\"\x1e\
    no opening mark\x1d{\"a\":b\"}\x1e";

// The same, behind more octets than are looked at together.
const LONG_STRINGS: [u8; 191] = *b"\
    LF far in a string\x1d{\"a\":\"abcdefghijklmnopqrstuvwxyz-abcdefghijklmnopqrstuvwxyz-abcdefghijkl\nabc\"}\x1e\
    a long string\x1d{\"a\":\"abcdefghijklmnopqrstuvwxyz-abcdefghijklmnopqrstuvwxyz-abcdefghijkl-abc\"}\x1e";

// RFC 3629 section 4: 00-7F, and C2-DF with a tail 80-BF.
const ONE_AND_TWO_OCTETS: [u8; 257] = *b"\
    7F\x1d{\"a\":\"\x7f\"}\x1e\
    80\x1d{\"a\":\"\x80\"}\x1e\
    BF\x1d{\"a\":\"\xbf\"}\x1e\
    C0 80\x1d{\"a\":\"\xc0\x80\"}\x1e\
    C0 AF\x1d{\"a\":\"\xc0\xaf\"}\x1e\
    C1 BF\x1d{\"a\":\"\xc1\xbf\"}\x1e\
    C2 80\x1d{\"a\":\"\xc2\x80\"}\x1e\
    C2 7F\x1d{\"a\":\"\xc2\x7f\"}\x1e\
    C2 C0\x1d{\"a\":\"\xc2\xc0\"}\x1e\
    C2 alone\x1d{\"a\":\"\xc2\"}\x1e\
    DF BF\x1d{\"a\":\"\xdf\xbf\"}\x1e\
    DF BF 80\x1d{\"a\":\"\xdf\xbf\x80\"}\x1e\
    C3 A9 in a name\x1d{\"\xc3\xa9\":1}\x1e\
    C3 A9 outside of strings\x1d{\"a\":\xc3\xa9}\x1e";

// RFC 3629 section 4: E0 A0-BF tail, E1-EC 2 tails, ED 80-9F tail, EE-EF 2 tails.
const THREE_OCTETS: [u8; 329] = *b"\
    E0 9F BF\x1d{\"a\":\"\xe0\x9f\xbf\"}\x1e\
    E0 A0 80\x1d{\"a\":\"\xe0\xa0\x80\"}\x1e\
    E1 80 80\x1d{\"a\":\"\xe1\x80\x80\"}\x1e\
    E1 7F 80\x1d{\"a\":\"\xe1\x7f\x80\"}\x1e\
    E1 80 C0\x1d{\"a\":\"\xe1\x80\xc0\"}\x1e\
    E1 80 alone\x1d{\"a\":\"\xe1\x80\"}\x1e\
    EC BF BF\x1d{\"a\":\"\xec\xbf\xbf\"}\x1e\
    ED 80 80\x1d{\"a\":\"\xed\x80\x80\"}\x1e\
    ED 9F BF\x1d{\"a\":\"\xed\x9f\xbf\"}\x1e\
    ED A0 80\x1d{\"a\":\"\xed\xa0\x80\"}\x1e\
    ED BF BF\x1d{\"a\":\"\xed\xbf\xbf\"}\x1e\
    ED A0 B4 ED B4 9E\x1d{\"a\":\"\xed\xa0\xb4\xed\xb4\x9e\"}\x1e\
    EE 80 80\x1d{\"a\":\"\xee\x80\x80\"}\x1e\
    EF BB BF\x1d{\"a\":\"\xef\xbb\xbf\"}\x1e\
    EF BF BF\x1d{\"a\":\"\xef\xbf\xbf\"}\x1e";

// RFC 3629 section 4: F0 90-BF 2 tails, F1-F3 3 tails, F4 80-8F 2 tails; nothing above.
const FOUR_OCTETS: [u8; 332] = *b"\
    F0 8F BF BF\x1d{\"a\":\"\xf0\x8f\xbf\xbf\"}\x1e\
    F0 90 80 80\x1d{\"a\":\"\xf0\x90\x80\x80\"}\x1e\
    F0 90 80 alone\x1d{\"a\":\"\xf0\x90\x80\"}\x1e\
    F0 90 80 7F\x1d{\"a\":\"\xf0\x90\x80\x7f\"}\x1e\
    F0 90 C0 80\x1d{\"a\":\"\xf0\x90\xc0\x80\"}\x1e\
    F1 80 80 80\x1d{\"a\":\"\xf1\x80\x80\x80\"}\x1e\
    F3 BF BF BF\x1d{\"a\":\"\xf3\xbf\xbf\xbf\"}\x1e\
    F4 80 80 80\x1d{\"a\":\"\xf4\x80\x80\x80\"}\x1e\
    F4 8F BF BF\x1d{\"a\":\"\xf4\x8f\xbf\xbf\"}\x1e\
    F4 90 80 80\x1d{\"a\":\"\xf4\x90\x80\x80\"}\x1e\
    F5 80 80 80\x1d{\"a\":\"\xf5\x80\x80\x80\"}\x1e\
    F8 88 80 80 80\x1d{\"a\":\"\xf8\x88\x80\x80\x80\"}\x1e\
    FE\x1d{\"a\":\"\xfe\"}\x1e\
    FF\x1d{\"a\":\"\xff\"}\x1e";

// Document 01: at most 12 levels, the outermost object being level 1.
const LEVELS_OF_OBJECTS: [u8; 406] = *b"\
    12 levels of objects\x1d{\"a\":{\"a\":{\"a\":{\"a\":{\"a\":{\"a\":{\"a\":{\"a\":{\"a\":{\"a\":{\"a\":{}}}}}}}}}}}}\x1e\
    13 levels of objects\x1d{\"a\":{\"a\":{\"a\":{\"a\":{\"a\":{\"a\":{\"a\":{\"a\":{\"a\":{\"a\":{\"a\":{\"a\":{}}}}}}}}}}}}}\x1e\
    a number in 12 levels of objects\x1d{\"a\":{\"a\":{\"a\":{\"a\":{\"a\":{\"a\":{\"a\":{\"a\":{\"a\":{\"a\":{\"a\":{\"a\":1}}}}}}}}}}}}\x1e\
    a number in 13 levels of objects\x1d{\"a\":{\"a\":{\"a\":{\"a\":{\"a\":{\"a\":{\"a\":{\"a\":{\"a\":{\"a\":{\"a\":{\"a\":{\"a\":1}}}}}}}}}}}}}\x1e";

// The same with arrays.
const LEVELS_OF_ARRAYS: [u8; 521] = *b"\
    12 levels with arrays\x1d{\"a\":[[[[[[[[[[[]]]]]]]]]]]}\x1e\
    13 levels with arrays\x1d{\"a\":[[[[[[[[[[[[]]]]]]]]]]]]}\x1e\
    a word in 12 levels with arrays\x1d{\"a\":[[[[[[[[[[[null]]]]]]]]]]]}\x1e\
    a word in 13 levels with arrays\x1d{\"a\":[[[[[[[[[[[[null]]]]]]]]]]]]}\x1e\
    13 levels behind 12\x1d{\"a\":[[[[[[[[[[[]]]]]]]]]]],\"b\":[[[[[[[[[[[[]]]]]]]]]]]]}\x1e\
    12 levels behind 12\x1d{\"a\":[[[[[[[[[[[]]]]]]]]]]],\"b\":[[[[[[[[[[[]]]]]]]]]]]}\x1e\
    14 arrays side by side\x1d{\"a\":[[],[],[],[],[],[],[],[],[],[],[],[],[],[]]}\x1e\
    brackets in a string are no levels\x1d{\"a\":\"[[[[[[[[[[[[[[\"}\x1e";

// RFC 8259 section 13, the first text, with less space before its lines.
const IMAGE: [u8; 264] = *b"\
    section 13, object\x1d{\n \"Image\": {\n \"Width\":  800,\n \"Height\": 600,\n \"Title\":  \"View from 15th Floor\",\n \"Thumbnail\": {\n \"Url\":    \"http://www.example.com/image/481989943\",\n  \"Height\": 125,\n  \"Width\":  100\n },\n \"Animated\" : false,\n \"IDs\": [116, 943, 234, 38793]\n }\n}\n\x1e";

// RFC 8259 section 13, the second text; document 01, T4, T9 and T10. A name twice is not judged here.
const OTHERS: [u8; 246] = *b"\
    section 13, array\x1d[{\"precision\": \"zip\", \"Latitude\": 37.7668, \"Longitude\": -122.3959}]\x1e\
    T4\x1d{\"alg\":\"dir\",\"enc\":\"A128GCM\"}\x1e\
    T9\x1d{\"alg\":\"dir\",\"\\u0061lg\":\"dir\",\"enc\":\"A128GCM\"}\x1e\
    T10\x1d{\"unprotected\":{\"alg\":\"dir\",\"enc\":\"A128GCM\"},\"aad\":\"AA\",\"ciphertext\":\"\"}\x1e";

// Two spellings say the same code points, or not (RFC 8259 section 8.3, RFC 7515 section 5.3).
const ALIKE: [u8; 246] = *b"\
    alg, alg\x1dalg\x1dalg\x1e\
    alg, \\u0061lg\x1dalg\x1d\\u0061lg\x1e\
    \\u0061lg, a\\u006Cg\x1d\\u0061lg\x1da\\u006Cg\x1e\
    alg, Alg\x1dalg\x1dAlg\x1e\
    alg, al\x1dalg\x1dal\x1e\
    al, alg\x1dal\x1dalg\x1e\
    nothing, nothing\x1d\x1d\x1e\
    nothing, a\x1d\x1da\x1e\
    nothing, \\u0000\x1d\x1d\\u0000\x1e\
    a\\\\b, a\\u005Cb\x1da\\\\b\x1da\\u005Cb\x1e\
    \\\", \\u0022\x1d\\\"\x1d\\u0022\x1e\
    \\/, /\x1d\\/\x1d/\x1e";

// The same for the other escapes, and for escapes beside UTF-8.
const ALIKE_ESCAPES: [u8; 317] = *b"\
    \\b, \\u0008\x1d\\b\x1d\\u0008\x1e\
    \\f, \\u000c\x1d\\f\x1d\\u000c\x1e\
    \\n, \\u000A\x1d\\n\x1d\\u000A\x1e\
    \\r, \\u000d\x1d\\r\x1d\\u000d\x1e\
    \\t, \\u0009\x1d\\t\x1d\\u0009\x1e\
    \\n, n\x1d\\n\x1dn\x1e\
    \\\\u0061, a\x1d\\\\u0061\x1da\x1e\
    \\u00e9, C3 A9\x1d\\u00e9\x1d\xc3\xa9\x1e\
    \\u20ac, E2 82 AC\x1d\\u20ac\x1d\xe2\x82\xac\x1e\
    \\ud834\\udd1e, F0 9D 84 9E\x1d\\ud834\\udd1e\x1d\xf0\x9d\x84\x9e\x1e\
    \\ud834\\udd1e, \\uD834\\uDD1F\x1d\\ud834\\udd1e\x1d\\uD834\\uDD1F\x1e\
    \\u00e9, e\\u0301\x1d\\u00e9\x1de\\u0301\x1e";

// A spelling says code points whose UTF-8 is these octets, or not.
const HAS: [u8; 384] = *b"\
    \\u0061lg has alg\x1d\\u0061lg\x1dalg\x1e\
    alg has alg\x1dalg\x1dalg\x1e\
    alg has al\x1dalg\x1dal\x1e\
    al has alg\x1dal\x1dalg\x1e\
    nothing has nothing\x1d\x1d\x1e\
    \\t has 09\x1d\\t\x1d\t\x1e\
    \\u0061 has \\u0061\x1d\\u0061\x1d\\u0061\x1e\
    \\\\u0061 has \\u0061\x1d\\\\u0061\x1d\\u0061\x1e\
    \\u07ff has DF BF\x1d\\u07ff\x1d\xdf\xbf\x1e\
    \\u0800 has E0 A0 80\x1d\\u0800\x1d\xe0\xa0\x80\x1e\
    \\udbff\\udfff has F4 8F BF BF\x1d\\udbff\\udfff\x1d\xf4\x8f\xbf\xbf\x1e\
    \\ud800\\udc00 has F0 90 80 80\x1d\\ud800\\udc00\x1d\xf0\x90\x80\x80\x1e\
    \\ud834\\udd1e has F0 9D 84\x1d\\ud834\\udd1e\x1d\xf0\x9d\x84\x1e";

// Octets to standard output. What cannot be written is missed there by who compares it.
fn say(rt: &impl Print, octets: &[u8]) {
    let _ = rt.write_all(octets);
}

// A text within 12 levels.
fn judged(rt: &impl Print, name: &[u8], text: &[u8]) {
    say(rt, name);
    let Some(_) = json_read::judge(text, 12) else {
        say(rt, b": refused\n");
        return;
    };
    say(rt, b": object\n");
}

fn told(rt: &impl Print, name: &[u8], same: bool) {
    say(rt, name);
    if same {
        say(rt, b": alike\n");
    } else {
        say(rt, b": different\n");
    }
}

// What a case asks.
#[derive(Clone, Copy)]
enum Question {
    // Whether a text is an object.
    Object,
    // Whether two spellings say the same.
    Alike,
    // Whether a spelling has some octets.
    Has,
}

// Two spellings, or a spelling and octets.
fn compared(rt: &impl Print, question: Question, name: &[u8], a: &[u8], b: &[u8]) {
    let Question::Alike = question else {
        told(rt, name, spelling::has(a, b));
        return;
    };
    told(rt, name, spelling::alike(a, b));
}

// One case: its name, and what stands behind it.
fn asked(rt: &impl Print, question: Question, name: &[u8], texts: &[u8]) {
    let Question::Object = question else {
        let middle = parts::seek(texts, 0, 0x1d);
        if texts.len() <= middle {
            return;
        }
        let second = middle + 1;
        compared(
            rt,
            question,
            name,
            parts::part(texts, 0, middle),
            &texts[second..],
        );
        return;
    };
    judged(rt, name, texts);
}

// Each case in turn.
fn each(rt: &impl Print, question: Question, cases: &[u8]) {
    let n = cases.len();
    let mut at: usize = 0;
    while at < n {
        let middle = parts::seek(cases, at, 0x1d);
        let end = parts::seek(cases, at, 0x1e);
        if n <= end {
            return;
        }
        if end <= middle {
            return;
        }
        let text = middle + 1;
        asked(rt, question, &cases[at..middle], &cases[text..end]);
        at = end + 1;
    }
}

fn main(rt: HostRuntime) {
    let cases = SPACE;
    each(&rt, Question::Object, &cases);
    let cases = WHOLE;
    each(&rt, Question::Object, &cases);
    let cases = OBJECTS;
    each(&rt, Question::Object, &cases);
    let cases = NO_OBJECTS;
    each(&rt, Question::Object, &cases);
    let cases = COMMAS;
    each(&rt, Question::Object, &cases);
    let cases = ARRAYS;
    each(&rt, Question::Object, &cases);
    let cases = WORDS;
    each(&rt, Question::Object, &cases);
    let cases = NUMBERS;
    each(&rt, Question::Object, &cases);
    let cases = NO_NUMBERS;
    each(&rt, Question::Object, &cases);
    let cases = NO_PARTS;
    each(&rt, Question::Object, &cases);
    let cases = ESCAPES;
    each(&rt, Question::Object, &cases);
    let cases = NO_ESCAPES;
    each(&rt, Question::Object, &cases);
    let cases = HALVES;
    each(&rt, Question::Object, &cases);
    let cases = LONE_HALVES;
    each(&rt, Question::Object, &cases);
    let cases = STRINGS;
    each(&rt, Question::Object, &cases);
    let cases = LONG_STRINGS;
    each(&rt, Question::Object, &cases);
    let cases = ONE_AND_TWO_OCTETS;
    each(&rt, Question::Object, &cases);
    let cases = THREE_OCTETS;
    each(&rt, Question::Object, &cases);
    let cases = FOUR_OCTETS;
    each(&rt, Question::Object, &cases);
    let cases = LEVELS_OF_OBJECTS;
    each(&rt, Question::Object, &cases);
    let cases = LEVELS_OF_ARRAYS;
    each(&rt, Question::Object, &cases);
    let cases = IMAGE;
    each(&rt, Question::Object, &cases);
    let cases = OTHERS;
    each(&rt, Question::Object, &cases);
    let cases = ALIKE;
    each(&rt, Question::Alike, &cases);
    let cases = ALIKE_ESCAPES;
    each(&rt, Question::Alike, &cases);
    let cases = HAS;
    each(&rt, Question::Has, &cases);
}
