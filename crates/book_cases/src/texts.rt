// The sheet and the book that are damaged.

// The sheet of document 01, and its book.
pub const SHEET: [u8; 44] = *b"user,rec,id,map\n\
    ann,1,1,0\n\
    bo,0,1,1\n\
    cy,1,1,1\n";

pub const BOOK: [u8; 133] = *b"roles,bound,state\n\
    2,2,witnessed\n\
    \n\
    role,rec,id,map\n\
    R1,1,1,0\n\
    R2,0,1,1\n\
    \n\
    user,R1,R2\n\
    ann,1,0\n\
    bo,0,1\n\
    cy,1,1\n\
    \n\
    user,permission\n\
    ann,rec\n\
    bo,map\n";
