// Runs the judgement of a sheet at its limits, on each number alone, on several at once and on damaged sheets. A line
// of the output says what the sheet is, the number that was answered, and, where that is 0, the counts of the sheet
// that was read. A table of cases has, for each, what the sheet is and the sheet, both ended by a semicolon.

#![tactic(auto)]

mod build;
mod show;

use numbers::SHEET_LIMIT;
use show::{show, show_built, show_each, show_longer};

fn main() {
    show_built(b"64 permissions", 2, 64, 100);
    show_built(b"65 permissions", 2, 65, 100);
    show_built(b"128 permissions", 2, 128, 200);
    show_built(b"129 permissions", 2, 129, 200);
    show_built(b"256 users", 256, 3, 500);
    show_built(b"257 users", 257, 3, 500);
    show_built(b"2048 grants", 256, 64, 2048);
    show_built(b"2049 grants", 256, 64, 2049);
    show_built(b"2048 grants of 16 users", 16, 128, 2048);
    show_built(b"2049 grants of 17 users", 17, 128, 2049);
    show_longer(b"65536 bytes", 256, 124, 2048, 143);
    show_longer(b"65537 bytes", 256, 124, 2048, 144);
    long_name();
    accepted_or_not();
    each_number();
    several();
    damaged();
}

// Sheets of one long name and a line feed.
fn long_name() {
    let mut longest = [b'a'; SHEET_LIMIT];
    longest[SHEET_LIMIT - 1] = b'\n';
    show(b"65536 bytes of one name", &longest);
    let mut longer = [b'a'; SHEET_LIMIT + 1];
    longer[SHEET_LIMIT] = b'\n';
    show(b"65537 bytes of one name", &longer);
}

fn accepted_or_not() {
    show_each(
        b"a name of 16 bytes;user,a\nabcdefghijklmnop,1\n;\
        a name of 17 bytes;user,a\nabcdefghijklmnopq,1\n;\
        a user and a permission of one name;user,bo\nbo,1\n;\
        a user and a permission of one name but for case;user,BO\nbo,1\n;\
        names in upper and lower case;user,Rec,ID\nAnn,1,0\nBO,1,1\n;\
        the sheet of the paper;user,rec,id,map\nann,1,1,0\nbo,0,1,1\ncy,1,1,1\n;\
        one cell that says no;user,a\nbo,0\n;",
    );
}

fn each_number() {
    show_each(
        b"a byte that is not allowed;user,a\nb!,1\n;\
        first field not user;User,a\nbo,1\n;\
        no permission;user\nbo\n;\
        no user line;user,a\n;\
        a user without a name;user,a\n,1\n;\
        a permission without a name;user,a,\nbo,1,1\n;\
        two users of one name;user,a\nbo,1\ncy,1\nbo,0\n;\
        two permissions of one name;user,a,b,a\nbo,1,1,1\n;\
        two users of one name but for case;user,a\nAnn,1\nann,1\n;\
        two permissions of one name but for case;user,Id,b,iD\nbo,1,1,1\n;\
        two names of 16 bytes, the last letter in other case;user,a\nabcdefghijklmnop,1\nabcdefghijklmnoP,1\n;\
        the word user in upper case;USER,a\nbo,1\n;\
        a field too many;user,a\nbo,1,1\n;\
        a field too few;user,a,b\nbo,1\n;\
        a cell that is 2;user,a\nbo,2\n;\
        a cell that is empty;user,a,b\nbo,1,\n;",
    );
}

fn several() {
    show_each(
        b"2 to 5 at once;usr,\r,;\
        3 to 5 at once;usr,\n;\
        4 and 5 at once;user,\n;\
        5 to 8 at once;user,a\n,2,\n,2,\n;\
        6 to 8 at once;user,a\nbo,2,0\nbo,0\n;\
        7 and 8 at once;user,a\nbo,x\nbo,0\n;\
        7 and 8 at once, one name but for case;user,a\nbo,x\nBO,0\n;",
    );
}

fn damaged() {
    show_each(
        b"no bytes;;\
        a lone line feed;\n;\
        no line feed at the end;user,a\nbo,1;\
        an empty line at the end;user,a\nbo,1\n\n;\
        an empty line in the middle;user,a\n\nbo,1\n;\
        an empty first line;\nuser,a\nbo,1\n;\
        carriage returns;user,a\r\nbo,1\r\n;\
        a blank in a name;user,a\nb o,1\n;\
        a blank after a comma;user,a\nbo, 1\n;\
        a tab for a comma;user\ta\nbo\t1\n;\
        a comma at the end of each line;user,a,\nbo,1,\n;\
        a comma in front;,user,a\nbo,1\n;\
        a cell with a zero in front;user,a\nbo,01\n;",
    );
}
