//! The headers that are built in.

ghost use Rattle.std.specs.Prelude.{◌≡◌, option_map, find};
ghost use Rattle.std.specs.Str.{bytes_eq};
ghost use Rattle.libc_wrap.specs.Header.{headers, text_of};

use fsc_base::Name;

/// What `#include <stdio.h>` adds.
const STDIO: &[u8] = b"\
#ifndef _FSC_STDIO_H\n\
#define _FSC_STDIO_H\n\
#ifndef _FSC_SIZE_T\n\
#define _FSC_SIZE_T\n\
typedef unsigned int size_t;\n\
#endif\n\
#define NULL 0\n\
#define EOF (-1)\n\
int putchar(int);\n\
int getchar(void);\n\
int puts(const char *);\n\
int printf(const char *, ...);\n\
#endif\n\
";

/// What `#include <stdlib.h>` adds.
const STDLIB: &[u8] = b"\
#ifndef _FSC_STDLIB_H\n\
#define _FSC_STDLIB_H\n\
#ifndef _FSC_SIZE_T\n\
#define _FSC_SIZE_T\n\
typedef unsigned int size_t;\n\
#endif\n\
#define NULL 0\n\
#define RAND_MAX 32767\n\
#define EXIT_SUCCESS 0\n\
#define EXIT_FAILURE 1\n\
void *malloc(unsigned);\n\
void *calloc(unsigned, unsigned);\n\
void *realloc(void *, unsigned);\n\
void free(void *);\n\
void exit(int);\n\
void abort(void);\n\
int atoi(const char *);\n\
int abs(int);\n\
long labs(long);\n\
int rand(void);\n\
void srand(unsigned);\n\
#endif\n\
";

/// What `#include <string.h>` adds.
const STRING: &[u8] = b"\
#ifndef _FSC_STRING_H\n\
#define _FSC_STRING_H\n\
#ifndef _FSC_SIZE_T\n\
#define _FSC_SIZE_T\n\
typedef unsigned int size_t;\n\
#endif\n\
#define NULL 0\n\
void *memcpy(void *, const void *, unsigned);\n\
void *memmove(void *, const void *, unsigned);\n\
void *memset(void *, int, unsigned);\n\
int memcmp(const void *, const void *, unsigned);\n\
unsigned strlen(const char *);\n\
char *strcpy(char *, const char *);\n\
char *strncpy(char *, const char *, unsigned);\n\
char *strcat(char *, const char *);\n\
int strcmp(const char *, const char *);\n\
int strncmp(const char *, const char *, unsigned);\n\
char *strchr(const char *, int);\n\
char *strrchr(const char *, int);\n\
#endif\n\
";

/// What `#include <ctype.h>` adds.
const CTYPE: &[u8] = b"\
#ifndef _FSC_CTYPE_H\n\
#define _FSC_CTYPE_H\n\
int isdigit(int);\n\
int islower(int);\n\
int isupper(int);\n\
int isalpha(int);\n\
int isalnum(int);\n\
int isspace(int);\n\
int isprint(int);\n\
int isgraph(int);\n\
int iscntrl(int);\n\
int isxdigit(int);\n\
int ispunct(int);\n\
#endif\n\
";

/// What `#include <stddef.h>` adds.
const STDDEF: &[u8] = b"\
#ifndef _FSC_STDDEF_H\n\
#define _FSC_STDDEF_H\n\
#ifndef _FSC_SIZE_T\n\
#define _FSC_SIZE_T\n\
typedef unsigned int size_t;\n\
#endif\n\
#ifndef _FSC_PTRDIFF_T\n\
#define _FSC_PTRDIFF_T\n\
typedef int ptrdiff_t;\n\
#endif\n\
#define NULL 0\n\
#define offsetof(t,m) ((size_t)&((t*)0)->m)\n\
#endif\n\
";

/// What `#include <stdarg.h>` adds.
const STDARG: &[u8] = b"\
#ifndef _FSC_STDARG_H\n\
#define _FSC_STDARG_H\n\
#ifndef _FSC_VA_LIST\n\
#define _FSC_VA_LIST\n\
typedef char *va_list;\n\
#endif\n\
#define va_start(a,p) ((a)=__fsc_va())\n\
#define va_arg(a,t) (*(t*)(((a)+=4)-4))\n\
#define va_end(a) ((void)0)\n\
#endif\n\
";

/// What `#include <assert.h>` adds.
const ASSERT: &[u8] = b"\
#undef assert\n\
#ifdef NDEBUG\n\
#define assert(e) ((void)0)\n\
#else\n\
#define assert(e) ((e)?(void)0:__fsc_abort())\n\
#endif\n\
";

/// What `#include <limits.h>` adds.
const LIMITS: &[u8] = b"\
#ifndef _FSC_LIMITS_H\n\
#define _FSC_LIMITS_H\n\
#define CHAR_BIT 8\n\
#define SCHAR_MIN (-128)\n\
#define SCHAR_MAX 127\n\
#define UCHAR_MAX 255\n\
#define CHAR_MIN 0\n\
#define CHAR_MAX 255\n\
#define MB_LEN_MAX 1\n\
#define SHRT_MIN (-32768)\n\
#define SHRT_MAX 32767\n\
#define USHRT_MAX 65535\n\
#define INT_MIN (-2147483647-1)\n\
#define INT_MAX 2147483647\n\
#define UINT_MAX 4294967295u\n\
#define LONG_MIN (-2147483647l-1)\n\
#define LONG_MAX 2147483647l\n\
#define ULONG_MAX 4294967295ul\n\
#endif\n\
";

/// A header.
struct BuiltIn {
    name: &'static [u8],
    text: &'static [u8],
}

static HEADERS: [BuiltIn; 8] = [
    BuiltIn {
        name: b"stdio.h",
        text: STDIO,
    },
    BuiltIn {
        name: b"stdlib.h",
        text: STDLIB,
    },
    BuiltIn {
        name: b"string.h",
        text: STRING,
    },
    BuiltIn {
        name: b"ctype.h",
        text: CTYPE,
    },
    BuiltIn {
        name: b"stddef.h",
        text: STDDEF,
    },
    BuiltIn {
        name: b"stdarg.h",
        text: STDARG,
    },
    BuiltIn {
        name: b"assert.h",
        text: ASSERT,
    },
    BuiltIn {
        name: b"limits.h",
        text: LIMITS,
    },
];

/// The first of these headers that has the name.
fn named<'a>(headers: &'a [BuiltIn], name: &[u8]) -> Option<&'a BuiltIn>
    ensures { option_map (λ header. header.now) result ≡ find (λ header. bytes_eq header.name.now name.now) headers.now }
{
    headers.iter().find(|header| header.name == name)
}

/// The text of the header of that name, None where no header has it. It takes no memory.
#[tactic(auto, unfolding(crate::specs::Header::headers))]
pub fn header(name: &Name) -> Option<&'static [u8]>
    ensures { option_map (λ text. text.now) result ≡ text_of name.now headers }
{
    let found = named(&HEADERS, name.as_slice())?;
    Some(found.text)
}
