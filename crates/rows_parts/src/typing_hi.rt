//! A history for the sample layout, and its log.

/// H, i and Enter are typed, and a program takes one word more than they enter.
pub const TYPING_HI: (&str, &str) = (
    "400ms press lshift\n450ms press h\n500ms release h\n550ms release lshift\n600ms press i\n645ms release i\n700ms press enter\n745ms release enter\n780ms take\n780ms take\n780ms take\n780ms take\n800ms end",
    "64 port AA\n80 port 2A\n89 port 23\n89 word 2348\n100 port A3\n110 port AA\n119 port 17\n119 word 1769\n128 port 97\n138 port 1C\n138 word 1C0D\n148 port 9C\n152 taken 2348\n152 taken 1769\n152 taken 1C0D\n152 taken none\n",
);
