//! The units of the library, each a text of C that defines one function or a few.

ghost use Rattle.std.specs.Prelude.{◌≡◌, ◌<◌, [], length, map, slice_index_or};
ghost use Rattle.libc_wrap.specs.Library.{texts, names};

/// A unit of the library.
struct LibraryUnit {
    /// The names with external linkage that it defines.
    names: &'static [&'static [u8]],
    text: &'static [u8],
}

/// The units in the order in which they are linked.
static LIBRARY: [LibraryUnit; 37] = [
    LibraryUnit {
        names: &[b"putchar"],
        text: b"int putchar(int c){return __fsc_put(c);}\n",
    },
    LibraryUnit {
        names: &[b"getchar"],
        text: b"int getchar(void){return __fsc_get();}\n",
    },
    LibraryUnit {
        names: &[b"puts"],
        text: b"int puts(const char *s){while(*s)__fsc_put(*s++);__fsc_put('\\n');return 0;}\n",
    },
    LibraryUnit {
        names: &[b"malloc"],
        text: b"void *malloc(unsigned n){return __fsc_alloc(n);}\n",
    },
    LibraryUnit {
        names: &[b"calloc"],
        text: b"void *calloc(unsigned n,unsigned m){if(m&&n>4294967295u/m)return 0;return __fsc_alloc(n*m);}\n",
    },
    LibraryUnit {
        names: &[b"realloc"],
        text: b"void *realloc(void *p,unsigned n){void *q;unsigned m;if(!p)return __fsc_alloc(n);if(!n){__fsc_release(p);return 0;}m=__fsc_size(p);q=__fsc_alloc(n);if(q){__fsc_copy(q,p,m<n?m:n);__fsc_release(p);}return q;}\n",
    },
    LibraryUnit {
        names: &[b"free"],
        text: b"void free(void *p){__fsc_release(p);}\n",
    },
    LibraryUnit {
        names: &[b"exit"],
        text: b"void exit(int s){__fsc_exit(s);}\n",
    },
    LibraryUnit {
        names: &[b"abort"],
        text: b"void abort(void){__fsc_abort();}\n",
    },
    LibraryUnit {
        names: &[b"atoi"],
        text: b"int atoi(const char *s){int n=0,g=0;while(*s==' '||(*s>=9&&*s<=13))s++;if(*s=='-'||*s=='+')g=*s++=='-';while(*s>='0'&&*s<='9')n=n*10+(*s++-'0');return g?-n:n;}\n",
    },
    LibraryUnit {
        names: &[b"abs"],
        text: b"int abs(int n){return n<0?-n:n;}\n",
    },
    LibraryUnit {
        names: &[b"labs"],
        text: b"long labs(long n){return n<0?-n:n;}\n",
    },
    LibraryUnit {
        names: &[b"rand", b"srand"],
        text: b"static unsigned long next=1;int rand(void){next=next*1103515245+12345;return (unsigned)(next/65536)%32768;}void srand(unsigned s){next=s;}\n",
    },
    LibraryUnit {
        names: &[b"memcpy"],
        text: b"void *memcpy(void *d,const void *s,unsigned n){__fsc_copy(d,s,n);return d;}\n",
    },
    LibraryUnit {
        names: &[b"memmove"],
        text: b"void *memmove(void *d,const void *s,unsigned n){__fsc_copy(d,s,n);return d;}\n",
    },
    LibraryUnit {
        names: &[b"memset"],
        text: b"void *memset(void *d,int c,unsigned n){char *p=d;while(n--)*p++=c;return d;}\n",
    },
    LibraryUnit {
        names: &[b"memcmp"],
        text: b"int memcmp(const void *a,const void *b,unsigned n){const char *p=a,*q=b;while(n--){if(*p!=*q)return *p-*q;p++;q++;}return 0;}\n",
    },
    LibraryUnit {
        names: &[b"strlen"],
        text: b"unsigned strlen(const char *s){unsigned n=0;while(s[n])n++;return n;}\n",
    },
    LibraryUnit {
        names: &[b"strcpy"],
        text: b"char *strcpy(char *d,const char *s){char *p=d;while((*p++=*s++)!=0);return d;}\n",
    },
    LibraryUnit {
        names: &[b"strncpy"],
        text: b"char *strncpy(char *d,const char *s,unsigned n){unsigned i=0;while(i<n&&s[i]){d[i]=s[i];i++;}while(i<n)d[i++]=0;return d;}\n",
    },
    LibraryUnit {
        names: &[b"strcat"],
        text: b"char *strcat(char *d,const char *s){char *p=d;while(*p)p++;while((*p++=*s++)!=0);return d;}\n",
    },
    LibraryUnit {
        names: &[b"strcmp"],
        text: b"int strcmp(const char *a,const char *b){while(*a&&*a==*b){a++;b++;}return *a-*b;}\n",
    },
    LibraryUnit {
        names: &[b"strncmp"],
        text: b"int strncmp(const char *a,const char *b,unsigned n){while(n&&*a&&*a==*b){a++;b++;n--;}return n?*a-*b:0;}\n",
    },
    LibraryUnit {
        names: &[b"strchr"],
        text: b"char *strchr(const char *s,int c){while(*s!=(char)c){if(!*s)return 0;s++;}return (char*)s;}\n",
    },
    LibraryUnit {
        names: &[b"strrchr"],
        text: b"char *strrchr(const char *s,int c){char *r=0;do{if(*s==(char)c)r=(char*)s;}while(*s++);return r;}\n",
    },
    LibraryUnit {
        names: &[b"isdigit"],
        text: b"int isdigit(int c){return c>='0'&&c<='9';}\n",
    },
    LibraryUnit {
        names: &[b"islower"],
        text: b"int islower(int c){return c>='a'&&c<='z';}\n",
    },
    LibraryUnit {
        names: &[b"isupper"],
        text: b"int isupper(int c){return c>='A'&&c<='Z';}\n",
    },
    LibraryUnit {
        names: &[b"isalpha"],
        text: b"int isalpha(int c){return (c>='a'&&c<='z')||(c>='A'&&c<='Z');}\n",
    },
    LibraryUnit {
        names: &[b"isalnum"],
        text: b"int isalnum(int c){return (c>='a'&&c<='z')||(c>='A'&&c<='Z')||(c>='0'&&c<='9');}\n",
    },
    LibraryUnit {
        names: &[b"isspace"],
        text: b"int isspace(int c){return c==' '||(c>=9&&c<=13);}\n",
    },
    LibraryUnit {
        names: &[b"isprint"],
        text: b"int isprint(int c){return c>=32&&c<=126;}\n",
    },
    LibraryUnit {
        names: &[b"isgraph"],
        text: b"int isgraph(int c){return c>=33&&c<=126;}\n",
    },
    LibraryUnit {
        names: &[b"iscntrl"],
        text: b"int iscntrl(int c){return (c>=0&&c<32)||c==127;}\n",
    },
    LibraryUnit {
        names: &[b"isxdigit"],
        text: b"int isxdigit(int c){return (c>='0'&&c<='9')||(c>='a'&&c<='f')||(c>='A'&&c<='F');}\n",
    },
    LibraryUnit {
        names: &[b"ispunct"],
        text: b"int ispunct(int c){return c>=33&&c<=126&&!((c>='a'&&c<='z')||(c>='A'&&c<='Z')||(c>='0'&&c<='9'));}\n",
    },
    LibraryUnit {
        names: &[b"printf"],
        text: b"\
int printf(const char *f,...){\n\
char b[12];char *v=__fsc_va();int t=0;\n\
while(*f){\n\
int left=0,zero=0,w=0,p=-1,n=0,z=0,neg=0,i=0,k;unsigned u,base=10;const char *s;char *d;\n\
if(*f!='%'){__fsc_put(*f++);t++;continue;}\n\
f++;\n\
while(*f=='-'||*f=='0'){if(*f=='-')left=1;else zero=1;f++;}\n\
while(*f>='0'&&*f<='9')w=w*10+(*f++-'0');\n\
if(*f=='.'){p=0;f++;while(*f>='0'&&*f<='9')p=p*10+(*f++-'0');}\n\
if(*f=='l'||*f=='h')f++;\n\
k=*f;if(k==0)break;f++;\n\
if(k=='s'){s=*(const char **)v;v+=4;while((p<0||n<p)&&s[n])n++;}\n\
else if(k=='d'||k=='i'||k=='u'||k=='x'||k=='X'||k=='o'||k=='p'){\n\
u=*(unsigned *)v;v+=4;\n\
if((k=='d'||k=='i')&&(int)u<0){neg=1;u=-u;}\n\
if(k=='o')base=8;if(k=='x'||k=='X'||k=='p')base=16;\n\
d=b+12;\n\
if(u||p)do{i=u%base;*--d=i<10?'0'+i:(k=='X'?'A':'a')+i-10;n++;u/=base;}while(u);\n\
s=d;if(p>n)z=p-n;if(p<0&&zero&&!left&&w>n+neg)z=w-n-neg;}\n\
else{b[0]=k;if(k=='c'){b[0]=*(int *)v;v+=4;}s=b;n=1;}\n\
w=w-n-z-neg;t=t+n+z+neg+(w>0?w:0);\n\
while(!left&&w>0){__fsc_put(' ');w--;}\n\
if(neg)__fsc_put('-');\n\
while(z>0){__fsc_put('0');z--;}\n\
for(i=0;i<n;i++)__fsc_put(s[i]);\n\
while(w>0){__fsc_put(' ');w--;}\n\
}\n\
return t;}\n\
",
    },
];

/// How many units the library has. It takes no memory.
#[tactic(auto, unfolding(crate::specs::Library::texts))]
pub fn library_count() -> u32
    ensures count { result ≡ 37 }
    ensures all { result ≡ length texts }
{
    LIBRARY.len() as u32
}

/// The names with external linkage that unit `k` defines. It takes no memory.
pub fn library_names(k: u32) -> &'static [&'static [u8]]
    requires { k < 37 }
    ensures { map (λ name. name.now) result.now ≡ slice_index_or names k [] }
{
    LIBRARY[k as usize].names
}

/// The text of unit `k`, which ends in a line feed. It takes no memory.
pub fn library_text(k: u32) -> &'static [u8]
    requires { k < 37 }
    ensures { result.now ≡ slice_index_or texts k [] }
{
    LIBRARY[k as usize].text
}
