//! The forms of the texts: what stands before, between and after the words of the table.

/// Which characters of the table's words are escaped.
#[derive(Clone, Copy)]
pub enum Escaping {
    /// Those that end a text in single quotes.
    Shell,
    /// Those that roff takes as its own.
    Roff,
}

/// A piece of a text.
#[derive(Clone, Copy)]
pub enum Piece {
    Text(&'static str),
    /// The program's version, and its purpose.
    Version,
    Program,
    /// A command's name, its purpose in one line, and its notes.
    Command,
    About,
    Notes,
    /// An argument's name, the name of its value, and its help.
    Name,
    Value,
    Help,
}

/// The pieces of a text about all commands.
#[derive(Clone, Copy)]
pub struct Form {
    pub escaping: Escaping,
    pub head: &'static [Piece],
    /// For each command, in a list of all.
    pub entry: &'static [Piece],
    pub middle: &'static str,
    /// For each command, before and after its arguments.
    pub command: &'static [Piece],
    pub end: &'static [Piece],
    pub positional: &'static [Piece],
    pub flag: &'static [Piece],
    pub option: &'static [Piece],
    pub tail: &'static str,
}

/// The manual page (man(7)).
pub const MANUAL: Form = Form {
    escaping: Escaping::Roff,
    head: &[
        Piece::Text(".TH DLMS 1 \"\" \"dlms "),
        Piece::Version,
        Piece::Text(
            "\"\n.SH NAME\ndlms \\- meter and head end for DLMS/COSEM\n.SH SYNOPSIS\n.B dlms\n.I COMMAND\n[\\fIARGUMENT\\fR ...]\n.SH DESCRIPTION\n.nf\n\\&",
        ),
        Piece::Program,
        Piece::Text("\n.fi\n.SH COMMANDS\n"),
    ],
    entry: &[
        Piece::Text(".TP\n.B "),
        Piece::Command,
        Piece::Text("\n"),
        Piece::About,
        Piece::Text("\n"),
    ],
    middle: "",
    command: &[
        Piece::Text(".SH \"DLMS "),
        Piece::Command,
        Piece::Text("\"\n"),
        Piece::About,
        Piece::Text(".\n"),
    ],
    end: &[
        Piece::Text(".PP\n.nf\n\\&"),
        Piece::Notes,
        Piece::Text("\n.fi\n"),
    ],
    positional: &[
        Piece::Text(".TP\n.I "),
        Piece::Name,
        Piece::Text("\n"),
        Piece::Help,
        Piece::Text("\n"),
    ],
    flag: &[
        Piece::Text(".TP\n.B \\-\\-"),
        Piece::Name,
        Piece::Text("\n"),
        Piece::Help,
        Piece::Text("\n"),
    ],
    option: &[
        Piece::Text(".TP\n.BI \\-\\-"),
        Piece::Name,
        Piece::Text(" \" "),
        Piece::Value,
        Piece::Text("\"\n"),
        Piece::Help,
        Piece::Text("\n"),
    ],
    tail: "",
};

/// Completions of bash: the words of `compgen`.
pub const BASH: Form = Form {
    escaping: Escaping::Shell,
    head: &[Piece::Text(
        "_dlms() {\n    local words=\n    if [ \"$COMP_CWORD\" = 1 ]; then\n        words='",
    )],
    entry: &[Piece::Command, Piece::Text(" ")],
    middle: "'\n    else\n        case ${COMP_WORDS[1]} in\n",
    command: &[
        Piece::Text("            "),
        Piece::Command,
        Piece::Text(") words='"),
    ],
    end: &[Piece::Text("--help' ;;\n")],
    positional: &[],
    flag: &[Piece::Text("--"), Piece::Name, Piece::Text(" ")],
    option: &[Piece::Text("--"), Piece::Name, Piece::Text(" ")],
    tail: "        esac\n    fi\n    COMPREPLY=($(compgen -W \"$words\" -- \"${COMP_WORDS[COMP_CWORD]}\"))\n}\ncomplete -o default -F _dlms dlms\n",
};

/// Completions of zsh: arrays for `_describe`.
pub const ZSH: Form = Form {
    escaping: Escaping::Shell,
    head: &[Piece::Text(
        "#compdef dlms\n_dlms() {\n    local -a commands options\n    commands=(\n",
    )],
    entry: &[
        Piece::Text("        '"),
        Piece::Command,
        Piece::Text(":"),
        Piece::About,
        Piece::Text("'\n"),
    ],
    middle: "    )\n    if (( CURRENT == 2 )); then\n        _describe command commands\n        return\n    fi\n    case $words[2] in\n",
    command: &[
        Piece::Text("        "),
        Piece::Command,
        Piece::Text(") options=(\n"),
    ],
    end: &[Piece::Text("            '--help:Print help'\n        ) ;;\n")],
    positional: &[],
    flag: &[
        Piece::Text("            '--"),
        Piece::Name,
        Piece::Text(":"),
        Piece::Help,
        Piece::Text("'\n"),
    ],
    option: &[
        Piece::Text("            '--"),
        Piece::Name,
        Piece::Text(":"),
        Piece::Help,
        Piece::Text("'\n"),
    ],
    tail: "    esac\n    _describe -o option options\n    _files\n}\n_dlms \"$@\"\n",
};

/// Completions of fish: a line for each command and each option.
pub const FISH: Form = Form {
    escaping: Escaping::Shell,
    head: &[],
    entry: &[
        Piece::Text("complete -c dlms -n __fish_use_subcommand -f -a "),
        Piece::Command,
        Piece::Text(" -d '"),
        Piece::About,
        Piece::Text("'\n"),
    ],
    middle: "",
    command: &[],
    end: &[],
    positional: &[],
    flag: &[
        Piece::Text("complete -c dlms -n '__fish_seen_subcommand_from "),
        Piece::Command,
        Piece::Text("' -l "),
        Piece::Name,
        Piece::Text(" -d '"),
        Piece::Help,
        Piece::Text("'\n"),
    ],
    option: &[
        Piece::Text("complete -c dlms -n '__fish_seen_subcommand_from "),
        Piece::Command,
        Piece::Text("' -r -l "),
        Piece::Name,
        Piece::Text(" -d '"),
        Piece::Help,
        Piece::Text("'\n"),
    ],
    tail: "",
};
