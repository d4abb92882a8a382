//! Manifests and their results: the lines of their tree's canonical text, or their first fault.
use mtree_manifest::LineKind;

/// Manifests of a tree, each with the lines of the canonical text after `#mtree`.
pub const TREES: &[(&[u8], &[u8])] = &[
    // lines, and what ends them
    (b"", b""),
    (b"#mtree\n", b""),
    (b"./a type=dir", b"./a type=dir\n"),
    (
        b"./a type=dir\r\n./b type=dir\n",
        b"./a type=dir\n./b type=dir\n",
    ),
    (b"\n \t \n  # ./a\n \t./b\t type=dir  \n", b"./b type=dir\n"),
    // joined lines: a backslash at the end is a blank, in comments too, and at the end of the text
    (b"./a \\\n  type=dir\n", b"./a type=dir\n"),
    (b"./a\\\ntype=dir\n", b"./a type=dir\n"),
    (b"./a\\\r\ntype=dir\n", b"./a type=dir\n"),
    (b"./a\\\n\\\n\\\ntype=dir\n", b"./a type=dir\n"),
    (b"# c\\\n./a type=dir\n./b type=dir\n", b"./b type=dir\n"),
    (b"./a type=dir\\", b"./a type=dir\n"),
    (b"./a type=dir\\\n", b"./a type=dir\n"),
    // defaults
    (
        b"/set type=dir\n./a\n./b type=file\n./c\n",
        b"./a type=dir\n./b type=file\n./c type=dir\n",
    ),
    (b"/set type=dir\n/unset type\n./a\n", b"./a type=file\n"),
    (
        b"/set inode=1 ctime=2 size=3 dev=4\n./a\n/unset dev\n./b\n/unset ctime\n./c\n",
        b"./a type=file dev=4 inode=1 ctime=2 size=3\n./b type=file dev=0 inode=1 ctime=2 size=3\n./c type=file\n",
    ),
    (
        b"/set type=link link=x contents=k\n/unset link contents\n./a link=y\n/unset all\n./b\n",
        b"./a type=link link=y\n./b type=file\n",
    ),
    (
        b"/set type=dir\n/unset type=dir \\q size=\n./a\n",
        b"./a type=dir\n",
    ),
    (b"/set\n/unset\n./a type=dir\n", b"./a type=dir\n"),
    (
        b"/set uname=root type=dir\n/set gname=root\n./a\n",
        b"./a type=dir\n",
    ),
    (
        b"/set contents=k\n./a\n./b contents=b\n",
        b"./a type=file contents=k\n./b type=file\n",
    ),
    // directories that are open
    (
        b"usr type=dir\nlib type=dir\nx\n..\ny\n..\nz\n",
        b"./usr type=dir\n./usr/lib type=dir\n./usr/lib/x type=file\n./usr/y type=file\n./z type=file\n",
    ),
    (
        b"usr type=dir\n.. type=pear \\q dev\nx\n",
        b"./usr type=dir\n./x type=file\n",
    ),
    (b"./usr type=dir\nx\n", b"./usr type=dir\n./x type=file\n"),
    (
        b"usr type=dir\n./x\ny\n",
        b"./usr type=dir\n./usr/y type=file\n./x type=file\n",
    ),
    (
        b". type=dir\nusr type=dir\n. type=dir\n..\nx\n..\ny\n..\nz\n",
        b"./usr type=dir\n./usr/x type=file\n./y type=file\n./z type=file\n",
    ),
    (
        b"usr type=dir\n./ type=dir\nx\n",
        b"./usr type=dir\n./usr/x type=file\n",
    ),
    (
        b"/set type=dir\nusr\nx type=file\n..\nlib\n",
        b"./lib type=dir\n./usr type=dir\n./usr/x type=file\n",
    ),
    // paths: empty components and dots are dropped, and the root has no node
    (b".//a/./b/\n", b"./a/b type=file\n"),
    (b"/a/b\na/c\n", b"./a/b type=file\n./a/c type=file\n"),
    (
        b"./ type=dir\n// type=dir\n./. type=dir\n. type=dir\n..\n",
        b"",
    ),
    (
        b"./a-b type=dir\n./a/x type=dir\n",
        b"./a/x type=dir\n./a-b type=dir\n",
    ),
    // keywords: unknown ones are skipped, the first `=` divides, and later ones override
    (
        b"./a mode=0755 nochange =x type=dir uname=root\n",
        b"./a type=dir\n",
    ),
    (
        b"./a type=dir type=link link=x link=y=z\n",
        b"./a type=link link=y=z\n",
    ),
    // escapes
    (
        b"./\\141\\s\\t\\n\\\\\\# type=dir\n",
        b"./a\\040\\011\\012\\134\\043 type=dir\n",
    ),
    (b"\\#a type=dir\n", b"./\\043a type=dir\n"),
    (
        b"./a#b\n./\\303\\244/x\n",
        b"./a\\043b type=file\n./\\303\\244/x type=file\n",
    ),
    (b"./\xc3\xa4\n", b"./\\303\\244 type=file\n"),
    (
        b"./a type=link link=\\056\\056/b\\sc\n./d contents=\\153#\n",
        b"./a type=link link=../b\\040c\n./d type=file contents=k\\043\n",
    ),
    (
        b"./a type=link link=\\001\\377\n",
        b"./a type=link link=\\001\\377\n",
    ),
    (b"./usr\\001 mode=\\q\n", b"./usr\\001 type=file\n"),
    // numbers with and without leading zeros
    (
        b"./a inode=00000000000000000007 ctime=0 size=18446744073709551615\n",
        b"./a type=file dev=0 inode=7 ctime=0 size=18446744073709551615\n",
    ),
    (
        b"./a dev=9 inode=1 size=3\n./b inode=1 ctime=2\n./c ctime=2 size=3\n",
        b"./a type=file\n./b type=file\n./c type=file\n",
    ),
    // types that have no node
    (
        b"./a type=file\n./a/b type=fifo\n./c type=block\n./d type=char\n./e type=socket\n",
        b"./a type=file\n",
    ),
    // keys and targets
    (
        b"./usr/a contents=usr/a\n./usr/b contents=usr/a\n",
        b"./usr/a type=file\n./usr/b type=file contents=usr/a\n",
    ),
    (
        b"/set type=link link=x\n./a\n./b type=file link=\n",
        b"./a type=link link=x\n./b type=file\n",
    ),
    (
        b"./a type=dir link=x contents=k size=1\n",
        b"./a type=dir\n",
    ),
    // a node that replaces another
    (
        b"./a\n./a type=dir\n./a/b\n./a/b type=link link=c\n",
        b"./a type=dir\n./a/b type=link link=c\n",
    ),
    (b"./a\n./a\n", b"./a type=file\n"),
    // as mtree(8) and others write them
    (
        b"#mtree\n/set type=file\n. type=dir\n    usr type=dir\n        lib type=dir\n            libz.so.1 inode=7 ctime=3 size=251\n        ..\n    ..\n..\n",
        b"./usr type=dir\n./usr/lib type=dir\n./usr/lib/libz.so.1 type=file dev=0 inode=7 ctime=3 size=251\n",
    ),
    (
        b"#mtree\n. time=1.0 mode=755 gid=0 uid=0 type=dir\n./usr/lib/libz.so.1 time=1.0 mode=777 gid=0 uid=0 type=link link=libz.so.1.3\n",
        b"./usr/lib/libz.so.1 type=link link=libz.so.1.3\n",
    ),
];

/// Manifests with a bad line, each with its number and kind.
pub const BAD_LINES: &[(&[u8], u64, LineKind)] = &[
    // the number is that of the first physical line
    (b"./a type=dir\n./b\\\n type=pear\n", 2, LineKind::BadType),
    (
        b"# x\\\ny\n./b \\\n\\\n type=pear\n\n",
        3,
        LineKind::BadType,
    ),
    (b"./a\n\n\n./b type=pear\n./c dev\n", 4, LineKind::BadType),
    (b"./a size=x\n./b\\q\n", 1, LineKind::BadNumber),
    // a carriage return is dropped only before a line feed, and a backslash at the end is not an escape
    (b"./a type=dir\r", 1, LineKind::BadType),
    (b"./a\\\\\n", 1, LineKind::BadEscape),
    (b"./a type=dir\r \n", 1, LineKind::BadType),
    // first words
    (b"..\n", 1, LineKind::BadLine),
    (b"a type=dir\n..\n..\n", 3, LineKind::BadLine),
    (b"/foo\n", 1, LineKind::BadLine),
    (b"/\n", 1, LineKind::BadLine),
    (b"/settings type=dir\n", 1, LineKind::BadLine),
    (b"/a\\q\n", 1, LineKind::BadEscape),
    (b"/foo link=\\q\n", 1, LineKind::BadEscape),
    (b"/foo type=pear\n", 1, LineKind::BadLine),
    (b"./../a\n", 1, LineKind::BadLine),
    (b"a/..\n", 1, LineKind::BadLine),
    (b"\\056\\056 type=dir\n", 1, LineKind::BadLine),
    (b"\\056 type=dir\n", 1, LineKind::BadLine),
    (b"./\\056/x\n", 1, LineKind::BadLine),
    (b"a\\057b\n", 1, LineKind::BadLine),
    (b"./a\\057b\n", 1, LineKind::BadLine),
    (b"./\\377\n", 1, LineKind::BadLine),
    (b"./\xff\n", 1, LineKind::BadLine),
    (b"./a\x00b\n", 1, LineKind::BadLine),
    (b"./a\\q\n", 1, LineKind::BadEscape),
    (b"./a\\000\n", 1, LineKind::BadEscape),
    (b"./a\\400\n", 1, LineKind::BadEscape),
    (b"./a\\12\n", 1, LineKind::BadEscape),
    (b"./a\\1/23\n", 1, LineKind::BadEscape),
    (b"./a\\8\n", 1, LineKind::BadEscape),
    (b"./a\\S\n", 1, LineKind::BadEscape),
    // the root and the current directory are directories
    (b".\n", 1, LineKind::BadLine),
    (b"./ type=file\n", 1, LineKind::BadLine),
    (b"// type=link link=x\n", 1, LineKind::BadLine),
    (b"usr type=dir\n. type=file\n", 2, LineKind::BadLine),
    (b". type=fifo\n", 1, LineKind::BadLine),
    (b". type=pear\n", 1, LineKind::BadLine),
    (b". type=pear type=dir\n", 1, LineKind::BadType),
    (b". type=dir type=pear\n", 1, LineKind::BadLine),
    (b". link\n", 1, LineKind::BadLine),
    (b". type=link\n", 1, LineKind::BadLine),
    // keywords, in lines with a path and in `/set`
    (b"./a size\n", 1, LineKind::BadLine),
    (b"/set type\n", 1, LineKind::BadLine),
    (b"./a contents type=pear\n", 1, LineKind::BadLine),
    (b"./a dev=\n", 1, LineKind::BadNumber),
    (b"./a inode=-1\n", 1, LineKind::BadNumber),
    (b"./a ctime=+1\n", 1, LineKind::BadNumber),
    (b"./a size=1a\n", 1, LineKind::BadNumber),
    (b"./a size=000000000000000000007\n", 1, LineKind::BadNumber),
    (b"./a size=18446744073709551616\n", 1, LineKind::BadNumber),
    (b"./a size=99999999999999999999\n", 1, LineKind::BadNumber),
    (b"/set size=x\n", 1, LineKind::BadNumber),
    (b"./a size=x size=1\n", 1, LineKind::BadNumber),
    (b". type=dir size=x\n", 1, LineKind::BadNumber),
    (b"./a type=\n", 1, LineKind::BadType),
    (b"./a type=pear type=file\n", 1, LineKind::BadType),
    (b"/set type=Dir\n", 1, LineKind::BadType),
    (b"./a type=dir=\n", 1, LineKind::BadType),
    (b"./a link=a\\q\n", 1, LineKind::BadEscape),
    (b"/set link=\\8\n", 1, LineKind::BadEscape),
    (b"./a link=x\x00\n", 1, LineKind::BadLine),
    (b"./a link=x\x00 link=y\n", 1, LineKind::BadLine),
    (b"./a contents=\n", 1, LineKind::BadLine),
    (b"./a contents=\\377\n", 1, LineKind::BadLine),
    (b"./a contents=a\x00\n", 1, LineKind::BadLine),
    (b"/set contents=\\q\n", 1, LineKind::BadEscape),
    (b"./a type=dir contents=\n", 1, LineKind::BadLine),
    // a link needs a target
    (b"./a type=link\n", 1, LineKind::NoTarget),
    (b"./a type=link link=\n", 1, LineKind::NoTarget),
    (b"/set type=link\n./a link=x\n./b\n", 3, LineKind::NoTarget),
    (b"/set type=link link=x\n./a link=\n", 2, LineKind::NoTarget),
    (b"./a link=x\n./b type=link\n", 2, LineKind::NoTarget),
    // of several faults the first kind is reported
    (
        b"./../b size=x type=pear link=\\q\n",
        1,
        LineKind::BadEscape,
    ),
    (b"./../b size=x type=pear\n", 1, LineKind::BadLine),
    (b"./b size=x type=pear link\n", 1, LineKind::BadLine),
    (b"./b type=pear size=x\n", 1, LineKind::BadNumber),
    (b"./b type=link size=x\n", 1, LineKind::BadNumber),
    (b"./b type=pear type=link\n", 1, LineKind::BadType),
    (b"./a\n./a/b type=link\n", 2, LineKind::NoTarget),
    (b"./a type=dir\n./b\\9 type=dir\n", 2, LineKind::BadEscape),
];

/// Manifests that would put something below a file or a link, each with the number of the line.
pub const CLASHES: &[(&[u8], u64)] = &[
    (b"./a\n./a/b\n", 2),
    (b"./a/b\n\n./a\n", 3),
    (b"./a type=link link=x\n./a/b/c type=dir\n", 2),
    (b"a type=dir\nb\n..\na type=file\n", 4),
];
